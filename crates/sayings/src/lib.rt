// What an entry point said, as an answer: `ok` or a word of the cache with numbers and texts, or `refused` with the number and the place.
#![tactic(auto)]

ghost use Rattle.std.specs.Prelude.{◌≡◌, ◌*◌, min};
ghost use Rattle.std.proofs.lemmas.List.Edits.{sets};
ghost use Rattle.rules.specs.Answer.{answer_said, refusal_said};
ghost use Rattle.rules.specs.Store.{cached_said};
ghost use Rattle.sayings.specs.Told.{numbered, brief, refused_told, text_told, text_span, lent_told, texts_told, counts_told, entries_told, span_of, Serves};

use replies::answers::{Answer, Manner, Word};
use rules::{Cached, Refusal};
use stores::put;
use units::counts::Counted;
use units::refusals::{number_of, place_of};

// A word alone.
pub fn said(word: Word) -> Answer
    ensures { result ≡ brief word 0 0 0 0 }
{
    Answer {
        word,
        count: 0,
        first: 0,
        second: 0,
        manner: Manner::Text,
        spans: 0,
        from: 0,
        to: 0,
        negative: false,
    }
}

// `ok` with one number, and the texts that so many numbers of the span table name.
pub fn with_one(number: usize, spans: usize) -> Answer
    ensures { result ≡ brief Word.Ok 1 number 0 spans }
{
    Answer {
        count: 1,
        first: number as u64,
        spans,
        ..said(Word::Ok)
    }
}

// `refused NUMBER PLACE`, with the texts that so many numbers of the span table name
fn refused(r: Refusal, spans: usize) -> Answer
    ensures { result ≡ refused_told (refusal_said r) spans }
{
    Answer {
        count: 2,
        first: u64::from(number_of(r)),
        second: place_of(r) as u64,
        spans,
        ..said(Word::Refused)
    }
}

// The same answer with the numbers from one place of the table up to another.
pub fn with_numbers(a: Answer, from: usize, to: usize, negative: bool) -> Answer
    ensures { result ≡ numbered a from to negative }
{
    Answer {
        from,
        to,
        negative,
        ..a
    }
}

// A number as the span table has it: what does not fit is its largest.
fn clipped(number: usize) -> u32
    ensures { result ≡ min number 4294967295 }
{
    u32::try_from(number).unwrap_or(u32::MAX)
}

// Names so many units from a start on as the table's first text.
pub fn name_text(spans: &mut [u32], start: usize, units: usize)
    ensures { spans.new ≡ sets spans.old 0 (span_of start units) }
{
    put(spans, 0, clipped(start));
    put(spans, 1, clipped(units));
}

// `ok TEXT`; the table's first text is what stands in front of the output
#[tactic(auto, using(crate::proofs::Numbers::refusal_numbered), unfolding(crate::specs::Told::text_told, crate::specs::Told::text_span))]
pub fn text_told<T: Counted>(answer: Result<T, Refusal>, spans: &mut [u32]) -> Answer
    ensures { let said = answer_said T.says answer in (result ≡ text_told said) × (spans.new ≡ sets spans.old 0 (text_span said)) }
{
    match answer {
        Ok(text) => {
            name_text(spans, 0, text.counts().units);
            Answer {
                spans: 2,
                ..said(Word::Ok)
            }
        }
        Err(r) => refused(r, 0),
    }
}

// `ok UNITS OUT`, or `refused NUMBER PLACE OUT`
#[tactic(auto, using(crate::proofs::Numbers::refusal_numbered), unfolding(crate::specs::Told::lent_told))]
pub fn lent_told<T: Counted>(answer: Result<T, Refusal>) -> Answer
    ensures { result ≡ lent_told (answer_said T.says answer) }
{
    match answer {
        Ok(lent) => with_one(lent.counts().units, 2),
        Err(r) => refused(r, 2),
    }
}

// So many places of a table, two for each text.
fn places_of(texts: usize, places: usize) -> usize
    ensures { result ≡ min (texts * 2) places }
{
    texts.saturating_mul(2).min(places)
}

// `ok COUNT A0 A1 ..`, by a span table of so many places
#[tactic(auto, using(crate::proofs::Numbers::refusal_numbered), unfolding(crate::specs::Told::texts_told))]
pub fn texts_told<T: Counted>(answer: Result<T, Refusal>, places: usize) -> Answer
    ensures { result ≡ texts_told places (answer_said T.says answer) }
{
    match answer {
        Ok(read) => {
            let texts = read.counts().arguments;
            with_one(texts, places_of(texts, places))
        }
        Err(r) => refused(r, 0),
    }
}

// `ok COUNT UNITS TEXT`, or `refused NUMBER PLACE TEXT`, where so many numbers of the span table name the text, or none
#[tactic(auto, using(crate::proofs::Numbers::refusal_numbered), unfolding(crate::specs::Told::counts_told))]
pub fn counts_told<T: Counted>(answer: Result<T, Refusal>, spans: usize) -> Answer
    ensures { result ≡ counts_told spans (answer_said T.says answer) }
{
    match answer {
        Ok(read) => {
            let counts = read.counts();
            Answer {
                count: 2,
                second: counts.units as u64,
                ..with_one(counts.arguments, spans)
            }
        }
        Err(r) => refused(r, spans),
    }
}

// `ok USED KEY:VALUE ..`, by a span table of so many places
#[tactic(auto, using(crate::proofs::Numbers::refusal_numbered), unfolding(crate::specs::Told::entries_told))]
pub fn entries_told<T: Counted>(answer: Result<T, Refusal>, places: usize) -> Answer
    ensures { result ≡ entries_told places (answer_said T.says answer) }
{
    match answer {
        Ok(listed) => {
            let counts = listed.counts();
            let texts = places_of(counts.arguments, places);
            Answer {
                manner: Manner::Key,
                ..with_one(counts.units, places_of(texts, places))
            }
        }
        Err(r) => refused(r, 0),
    }
}

// A word, and the line that stands at a start of the store's units, as the table's first text.
fn line_told(word: Word, start: usize, units: usize, spans: &mut [u32]) -> Answer
    ensures { (result ≡ brief word 0 0 0 2) × (spans.new ≡ sets spans.old 0 (span_of start units)) }
{
    name_text(spans, start, units);
    Answer {
        spans: 2,
        ..said(word)
    }
}

// `hit LINE`, `miss`, `stored LINE` or `held LINE`; the table's first text is the line, a part of the store's units
pub fn cached_told(c: Result<Cached, Refusal>, spans: &mut [u32]) -> Answer
    ensures { Serves (cached_said c) result spans.old spans.new }
{
    match c {
        Ok(Cached::Missed) => said(Word::Miss),
        Ok(Cached::Hit { start, units }) => line_told(Word::Hit, start, units, spans),
        Ok(Cached::Held { start, units }) => line_told(Word::Held, start, units, spans),
        Ok(Cached::Stored { start, units }) => line_told(Word::Stored, start, units, spans),
        Err(r) => refused(r, 0),
    }
}
