// A dump of units: its bytes from a file or from standard input, and the units that they stand for.
#![tactic(auto)]

ghost use Rattle.std.specs.Prelude.{◌≡◌, ◌+◌, ◌*◌, ◌≤◌, length, IfOk};
ghost use Rattle.std.proofs.lemmas.List.Edits.{sets};
ghost use Rattle.dumps.specs.Dumped.{dumped};

pub mod causes;

use causes::Cause;
use std::env::FillError;
use std::io::Read;
use std::rt::{Env, Files};
use std::{fs, str};
use stores::put;

// The unit of two bytes.
fn unit_of(low: u8, high: u8) -> u16
    ensures { result ≡ low + 256 * high }
{
    u16::from_le_bytes([low, high])
}

// The units of a dump, at the front of what is lent and as far as there is room. Answers how many there are.
// A slice pattern and no `as_chunks`: how many units there are is counted along.
#[tactic(auto, using(crate::proofs::Dumping::few))]
pub fn units_of(bytes: &[u8], out: &mut [u16]) -> usize
    ensures { (result ≡ length (dumped bytes.now)) × (out.new ≡ sets out.old 0 (dumped bytes.now)) }
{
    let mut rest = bytes;
    let mut to = 0;
    while let [low, high, more @ ..] = rest {
        put(out, to, unit_of(*low, *high));
        rest = more;
        to += 1;
    }
    to
}

// Reads to the end, or until what is lent is full. A `while` and no iterator: a pipe hands over a part at a time, of a length of its own.
// A count and no part of the bytes: what is lent to be written goes back whole.
fn read_all(from: &mut impl Read, bytes: &mut [u8]) -> Result<usize, Cause>
    ensures { IfOk result (λ count. count ≤ length bytes.old) }
{
    let mut done = 0;
    while done < bytes.len() {
        match from.read(&mut bytes[done..])? {
            0 => return Ok(done),
            count => done += count,
        }
    }
    Ok(done)
}

// Reads the dump in the file of a name.
fn read_file(rt: &impl Files, name: &str, bytes: &mut [u8]) -> Result<usize, Cause>
    ensures { IfOk result (λ count. count ≤ length bytes.old) }
{
    read_all(&mut fs::open(rt, name)?, bytes)
}

// Reads the dump that a path names, or standard input where it is `-`. Only a path in UTF-8 can be opened.
fn read_path(rt: &(impl Files + Input), path: &[u8], bytes: &mut [u8]) -> Result<usize, Cause>
    ensures { IfOk result (λ count. count ≤ length bytes.old) }
{
    match path {
        b"-" => read_all(&mut rt.reader(), bytes),
        _ => match str::from_utf8(path) {
            Ok(name) => read_file(rt, name, bytes),
            Err(_) => Err(Cause::NameNotUtf8),
        },
    }
}

// Reads the dump that a word of the call names.
pub fn read_word(
    rt: &(impl Env + Files + Input),
    index: usize,
    bytes: &mut [u8],
) -> Result<usize, Cause>
    ensures { IfOk result (λ count. count ≤ length bytes.old) }
{
    let mut path = [0u8; 4096];
    match rt.arg(index, &mut path) {
        Ok(n) => read_path(rt, &path[..n], bytes),
        Err(FillError::NotPresent) => Err(Cause::INVALID),
        Err(FillError::TooLong) => Err(Cause::NameTooLong),
    }
}
