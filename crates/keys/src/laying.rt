// The key of what is lent: measured, and laid down in a store's units.
ghost use Rattle.std.specs.Prelude.{◌≡◌, ◌++◌, ◌+◌, ◌≤◌, ◌<◌, ◌^◌, min, length};
ghost use Rattle.std.proofs.lemmas.List.Edits.{sets};
ghost use Rattle.rules.specs.Store.{code_of};
ghost use Rattle.laws.specs.Placed.{Placed};
ghost use Rattle.keys.specs.Laid.{unit_of, laid_argument, laid_arguments};
ghost use Rattle.keys.specs.Lent.{arguments_lent};

use crate::lent::Lent;
use stores::{copy_run, put};
use units::parts;

// How many units the key of what is lent has. Past a limit they are not counted further, so that no sum over many records wraps.
pub fn key_size(lent: &Lent<'_>, limit: usize) -> usize
    requires { limit < 2 ^ 63 }
    ensures { result ≡ min limit (length (lent.now.program.now ++ code_of (arguments_lent lent.now))) }
{
    let n = lent.records.len() / 3;
    let mut size = limit.min(lent.program.len());
    for i in 0..n {
        let arg = records::record_at(lent.records, i);
        let content = parts::part_of(lent.text, arg.start, arg.len);
        size = limit.min(size + 2 + content.len());
    }
    size
}

// A number as a unit.
fn unit_of(n: usize) -> u16
    ensures { result ≡ unit_of n }
{
    (n % 65536) as u16
}

// An argument from a place on: its kind, its length, its text. The answer is the place behind it.
fn put_argument(out: &mut [u16], at: usize, kind: u32, content: &[u16]) -> usize
    requires { at + (2 + length content.now) ≤ length out.old }
    ensures { Placed (laid_argument (record { kind = kind; content = content.now })) at result out.old out.new }
{
    put(out, at, unit_of(kind as usize));
    put(out, at + 1, unit_of(content.len()));
    copy_run(out, at + 2, content);
    at + 2 + content.len()
}

// The arguments that records name, one after another.
fn put_arguments(out: &mut [u16], at: usize, lent: &Lent<'_>)
    requires { at + length (laid_arguments (arguments_lent lent.now)) ≤ length out.old }
    ensures { out.new ≡ sets out.old at (laid_arguments (arguments_lent lent.now)) }
{
    let n = lent.records.len() / 3;
    let mut to = at;
    for i in 0..n {
        let arg = records::record_at(lent.records, i);
        let content = parts::part_of(lent.text, arg.start, arg.len);
        to = put_argument(out, to, arg.kind, content);
    }
}

// The key of what is lent from a place on: the program, then the arguments.
pub fn put_key(out: &mut [u16], at: usize, lent: &Lent<'_>)
    requires { at + (length lent.now.program.now + length (laid_arguments (arguments_lent lent.now))) ≤ length out.old }
    ensures { out.new ≡ sets out.old at (lent.now.program.now ++ laid_arguments (arguments_lent lent.now)) }
{
    copy_run(out, at, lent.program);
    put_arguments(out, at + lent.program.len(), lent);
}
