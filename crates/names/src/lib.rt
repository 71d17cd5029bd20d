// The program or script that a line starts with, what stands before the arguments, and the test for a batch suffix.
#![tactic(auto)]

ghost use Rattle.std.specs.Prelude.{◌≡◌};
ghost use Rattle.rules.specs.Choice.{both};
ghost use Rattle.rules.specs.Building.{is_no_script, script_of};
ghost use Rattle.laws.specs.Placed.{Appended};
ghost use Rattle.rules.specs.Suffix.{has_batch_suffix};
ghost use Rattle.names.specs.Name.{name_of, front_of, head_of};

// The unit before and behind a name.
const QUOTE: u16 = 34;

// The unit that may stand behind a script.
const NUL: u16 = 0;

// `cmd.exe /e:ON /v:OFF /d /c "`, the 28 units that a batch line starts with.
const FRONT: [u16; 28] = [
    99, 109, 100, 46, 101, 120, 101, 32, 47, 101, 58, 79, 78, 32, 47, 118, 58, 79, 70, 70, 32, 47,
    100, 32, 47, 99, 32, 34,
];

// Whether a script is none: it has a quote mark, or its last unit as lent is a backslash. A program has no such rule.
pub fn is_no_script(batch: bool, lent: &[u16]) -> bool
    ensures { result ≡ both batch (is_no_script lent.now) }
{
    batch && (scans::has_quote(lent) || scans::ends_in_backslash(lent))
}

// The script without one final NUL.
#[tactic(auto, using(crate::proofs::Script::last_nul))]
fn script_of(lent: &[u16]) -> &[u16]
    ensures { result.now ≡ script_of lent.now }
{
    match lent {
        [front @ .., NUL] => front,
        _ => lent,
    }
}

// The name that a line starts with: the program as lent, or the script without one final NUL.
#[tactic(auto, unfolding(crate::specs::Name::name_of))]
pub fn name_of(batch: bool, lent: &[u16]) -> &[u16]
    ensures { result.now ≡ name_of batch lent.now }
{
    if batch { script_of(lent) } else { lent }
}

// What stands before the name: the 28 units of a batch line, or nothing.
fn put_front(batch: bool, out: &mut [u16]) -> usize
    ensures { Appended (front_of batch) result out.old out.new }
{
    if batch {
        stores::copy_run(out, 0, &FRONT);
        FRONT.len()
    } else {
        0
    }
}

// What stands before the arguments, at the front of the output: the front, and the name between two quotes.
pub fn put_head(batch: bool, name: &[u16], out: &mut [u16]) -> usize
    ensures { Appended (head_of batch name.now) result out.old out.new }
{
    let at = put_front(batch, out);
    stores::put(out, at, QUOTE);
    let start = at + 1;
    stores::copy_run(out, start, name);
    let end = start + name.len();
    stores::put(out, end, QUOTE);
    end + 1
}

// Whether a path has a batch suffix. In the Rust: a closure of `spawn`, library/std/src/sys/process/windows.rs.
#[tactic(auto, using(crate::proofs::Letters::letters), unfolding(rules::specs::Suffix::is_suffix))]
pub fn has_bat_extension(path: &[u16]) -> bool
    ensures { result ≡ has_batch_suffix path.now }
{
    // `.bat` and `.cmd`, each letter in either case.
    matches!(
        path,
        [.., 46, 98 | 66, 97 | 65, 116 | 84] | [.., 46, 99 | 67, 109 | 77, 100 | 68]
    )
}
