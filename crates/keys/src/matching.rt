// A stored key compared with the key that is lent. Nothing is decoded: each part of the lent key is compared with the units that it would have there.
ghost use Rattle.std.specs.Prelude.{◌≡◌, ◌++◌, ◌+◌, ◌≤◌, length, drop};
ghost use Rattle.rules.specs.Choice.{equal};
ghost use Rattle.rules.specs.Record.{part};
ghost use Rattle.rules.specs.Store.{argument_code, code_of};
ghost use Rattle.keys.specs.Lent.{arguments_lent};

use crate::lent::Lent;
use comparing::same_units;
use units::parts;

// Whether the units from a place on begin with an argument: its kind, its length, its text.
fn argument_at(key: &[u16], at: usize, kind: u32, content: &[u16]) -> bool
    requires { at ≤ length key.now }
    ensures { result ≡ equal (part key.now at (2 + length content.now)) (argument_code (record { kind = kind; content = content.now })) }
{
    if key.len() - at < 2 + content.len() {
        return false;
    }
    if usize::from(key[at]) != kind as usize {
        return false;
    }
    if usize::from(key[at + 1]) != content.len() {
        return false;
    }
    let start = at + 2;
    let end = start + content.len();
    same_units(&key[start..end], content)
}

// Whether the units from a place on are the arguments that records name, and nothing more.
fn arguments_at(key: &[u16], at: usize, lent: &Lent<'_>) -> bool
    requires { at ≤ length key.now }
    ensures { result ≡ equal (drop at key.now) (code_of (arguments_lent lent.now)) }
{
    let n = lent.records.len() / 3;
    let mut to = at;
    for i in 0..n {
        let arg = records::record_at(lent.records, i);
        let content = parts::part_of(lent.text, arg.start, arg.len);
        if !argument_at(key, to, arg.kind, content) {
            return false;
        }
        to += 2 + content.len();
    }
    to == key.len()
}

// Whether units are those of a program and of the arguments that records name.
pub fn is_key(key: &[u16], lent: &Lent<'_>) -> bool
    ensures { result ≡ equal key.now (lent.now.program.now ++ code_of (arguments_lent lent.now)) }
{
    let front = lent.program.len();
    if key.len() < front || !same_units(&key[..front], lent.program) {
        return false;
    }
    arguments_at(key, front, lent)
}
