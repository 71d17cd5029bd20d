// A program's dialogue by lines: the lines of standard input one after another, and an answer to each on standard output. A proved loop has to end, so each
// counts its turns, to a number that no input uses up.
#![tactic(auto)]

ghost use Rattle.std.specs.Prelude.{◌≡◌, ◌≤◌, ◌<◌, ◌+◌, IfOk, IfSome, OnErr, length};
ghost use Rattle.dialogue.specs.Turn.{Fits, Gathered};

mod turns;

use replies::answers::{Answer, put_answer};
use replies::places::Place;
use std::io;
use std::io::Read;
use turns::{Turn, begin};

// How many bytes a piece of the input or of the output has at most.
const PIECE: usize = 65536;

// How many bytes of a line are kept: one more than a question may have, so that one that is too long is seen to be.
const LONGEST: usize = 400001;

// What the texts and numbers of an answer are shown of.
#[derive(Clone, Copy)]
pub struct Tables<'a> {
    pub out: &'a [u16],
    pub spans: &'a [u32],
    pub numbers: &'a [u32],
}

// Who answers lines.
pub trait Judge {
    // The answer to a line.
    fn answer(&mut self, line: &[u8]) -> Answer;

    // What it is shown of.
    fn tables(&self) -> Tables<'_>;
}

// Takes the next bytes of the chunk, up to a line feed or to its end, behind those that the line has. A line's bytes past the end of its memory are dropped:
// it is too long anyway.
fn take(t: Turn, taken: &[u8], line: &mut [u8]) -> Turn
    requires held { t.size ≤ length line.old }
    requires left { t.from + length taken.now ≤ t.end }
    ensures { Gathered t result (length line.old) }
{
    let bytes = taken.strip_suffix(b"\n").unwrap_or(taken);
    let room = line.len() - t.size;
    let kept = bytes.len().min(room);
    let size = t.size + kept;
    line[t.size..size].copy_from_slice(&bytes[..kept]);
    Turn {
        from: t.from + taken.len(),
        end: t.end,
        size,
        at: t.at,
    }
}

// The next chunk. All answers are written out before it is waited for.
fn refill<R: Read>(
    rt: &impl Print,
    input: &mut R,
    t: Turn,
    chunk: &mut [u8],
    piece: &[u8],
) -> io::Result<Turn>
    requires { t.at < length piece.now }
    ensures ok { IfOk result (λ r. (r.end ≤ length chunk.old) × (r.size ≡ t.size) × (r.at ≡ 0)) }
    ensures err { OnErr result (length chunk.new ≡ length chunk.old) }
{
    rt.write_all(&piece[..t.at])?;
    let end = input.read(chunk)?;
    Ok(Turn {
        from: 0,
        end,
        size: t.size,
        at: 0,
    })
}

// The next line, or none where the input has ended. A last line without a line feed counts.
fn next_line<R: Read>(
    rt: &impl Print,
    input: &mut R,
    t: Turn,
    chunk: &mut [u8],
    line: &mut [u8],
    piece: &[u8],
) -> io::Result<Option<Turn>>
    requires { Fits t (length chunk.old) (length line.old) (length piece.now) }
    ensures ok { IfOk result (λ o. IfSome o (λ r. Fits r (length chunk.old) (length line.old) (length piece.now))) }
    ensures err { OnErr result ((length chunk.new ≡ length chunk.old) × (length line.new ≡ length line.old)) }
{
    let mut r = t;
    for _ in 0..u64::MAX {
        let rest = &chunk[r.from..r.end];
        if let Some(n) = rest.iter().position(|byte| *byte == b'\n') {
            return Ok(Some(take(r, &rest[..=n], line)));
        }
        let taken = take(r, rest, line);
        r = refill(rt, input, taken, chunk, piece)?;
        if r.end == 0 {
            return Ok(if r.size > 0 { Some(r) } else { None });
        }
    }
    Ok(None)
}

// Puts an answer into the piece, which is written out whenever it is full. The next line has no bytes yet.
fn show(
    rt: &impl Print,
    t: Turn,
    a: Answer,
    tables: Tables<'_>,
    piece: &mut [u8],
) -> io::Result<Turn>
    requires { t.at < length piece.old }
    ensures ok { IfOk result (λ r. (r.at < length piece.old) × (r.end ≤ t.end) × (r.size ≤ t.size)) }
    ensures err { OnErr result (length piece.new ≡ length piece.old) }
{
    let Tables {
        out,
        spans,
        numbers,
    } = tables;
    let mut at = t.at;
    let mut skip = 0usize;
    for _ in 0..u64::MAX {
        let p = put_answer(piece, Place { skip, at }, a, out, spans, numbers);
        if p.at < piece.len() {
            at = p.at;
            break;
        }
        rt.write_all(piece)?;
        skip = skip.saturating_add(piece.len() - at);
        at = 0;
    }
    Ok(Turn {
        from: t.from,
        end: t.end,
        size: 0,
        at,
    })
}

// Has each line of the input answered, until the input ends.
pub fn converse<R: Read, J: Judge>(
    rt: &impl Print,
    input: &mut R,
    judge: &mut J,
) -> io::Result<()> {
    let mut chunk = [0; PIECE];
    let mut line = [0; LONGEST];
    let mut piece = [0; PIECE];
    let mut t = begin();
    for _ in 0..u64::MAX {
        let Some(asked) = next_line(rt, input, t, &mut chunk, &mut line, &piece)? else {
            break;
        };
        let a = judge.answer(&line[..asked.size]);
        t = show(rt, asked, a, judge.tables(), &mut piece)?;
    }
    Ok(())
}
