// An answer: its word, up to two numbers, texts, and numbers behind them.
ghost use Rattle.std.specs.Prelude.{◌≡◌, ◌∷◌, drop};
ghost use Rattle.forms.specs.Form.{each, shown};
ghost use Rattle.replies.specs.Page.{Puts};
ghost use Rattle.replies.specs.Show.{number_bytes, number_if, word_bytes, separator_of, colons_of, after_of, texts_in, texts_bytes, answer_bytes};

use crate::places::{Place, put, put_each, put_run};
use crate::shows::{put_number, put_text};
use units::parts::part_of;

// The word that an answer begins with.
#[derive(Clone, Copy, Debug, PartialEq, Eq)]
pub enum Word {
    Bad,
    Ok,
    Refused,
    Hit,
    Miss,
    Stored,
    Held,
}

// What a text is: one of its own, or the key or the value of an entry, in which a colon is `{3a}`.
#[derive(Clone, Copy, Debug, PartialEq, Eq)]
pub enum Manner {
    Text,
    Key,
    Value,
}

// An answer over lent units, a span table and a table of numbers.
#[derive(Clone, Copy, Debug, PartialEq, Eq)]
pub struct Answer {
    pub word: Word,
    // How many of the two numbers stand behind the word.
    // A count beside two numbers, and no list: the definitions `answer`, `brief` and `numbered` of `sayings` name these fields.
    pub count: usize,
    pub first: u64,
    pub second: u64,
    // What the texts are, and how many numbers of the span table, two a text, name them.
    pub manner: Manner,
    pub spans: usize,
    // The numbers behind them, from one place of the table up to another, and whether they are below 0.
    // No range and no signed number: the definitions `answer` and `numbered` name these fields.
    pub from: usize,
    pub to: usize,
    pub negative: bool,
}

impl Word {
    // Its bytes.
    #[tactic(auto, unfolding(crate::specs::Show::word_bytes, rules::specs::Unit::units))]
    fn bytes(self) -> &'static [u8]
        ensures { result.now ≡ word_bytes self }
    {
        match self {
            Word::Bad => b"bad",
            Word::Ok => b"ok",
            Word::Refused => b"refused",
            Word::Hit => b"hit",
            Word::Miss => b"miss",
            Word::Stored => b"stored",
            Word::Held => b"held",
        }
    }
}

impl Manner {
    // What stands in front of a text.
    fn separator(self) -> u8
        ensures { result ≡ separator_of self }
    {
        match self {
            Manner::Text | Manner::Key => b' ',
            Manner::Value => b':',
        }
    }

    // Whether a colon stands for itself.
    fn colons(self) -> bool
        ensures { result ≡ colons_of self }
    {
        matches!(self, Manner::Text)
    }

    // What the text behind it is.
    fn after(self) -> Manner
        ensures { result ≡ after_of self }
    {
        match self {
            Manner::Text => Manner::Text,
            Manner::Key => Manner::Value,
            Manner::Value => Manner::Key,
        }
    }
}

// A number where it is shown.
#[tactic(auto, using(crate::proofs::Putting::none_put))]
fn put_if(piece: &mut [u8], p: Place, shown: bool, number: u64) -> Place
    ensures { Puts (number_if shown number) p result piece.old piece.new }
{
    if shown {
        put_number(piece, p, false, number)
    } else {
        p
    }
}

// One text with what stands in front of it.
fn put_one(piece: &mut [u8], p: Place, manner: Manner, text: &[u16]) -> Place
    ensures { Puts (separator_of manner ∷ shown (colons_of manner) text.now) p result piece.old piece.new }
{
    let next = put(piece, p, manner.separator());
    put_text(piece, next, manner.colons(), text)
}

// All texts that a span table names.
#[tactic(auto, using(crate::proofs::Putting::texts_done))]
fn put_texts(piece: &mut [u8], p: Place, manner: Manner, out: &[u16], spans: &[u32]) -> Place
    ensures { Puts (texts_bytes manner (texts_in out.now spans.now)) p result piece.old piece.new }
{
    let mut to = p;
    let mut m = manner;
    let mut rest = spans;
    while let [start, size, more @ ..] = rest {
        to = put_one(piece, to, m, part_of(out, *start, *size));
        m = m.after();
        rest = more;
    }
    to
}

// All numbers of a table from a place on.
fn put_numbers(piece: &mut [u8], p: Place, negative: bool, numbers: &[u32], from: usize) -> Place
    ensures { Puts (each (number_bytes negative) (drop from numbers.now)) p result piece.old piece.new }
{
    let rest = numbers.get(from..).unwrap_or_default();
    put_each(
        piece,
        p,
        rest,
        |piece, to, number| put_number(piece, to, negative, u64::from(number)),
    )
}

// A whole answer with the line feed behind it.
pub fn put_answer(
    piece: &mut [u8],
    p: Place,
    a: Answer,
    out: &[u16],
    spans: &[u32],
    numbers: &[u32],
) -> Place
    ensures { Puts (answer_bytes a out.now spans.now numbers.now) p result piece.old piece.new }
{
    let named = a.spans.min(spans.len());
    let shown = a.to.min(numbers.len());
    let said = put_run(piece, p, a.word.bytes());
    let one = put_if(piece, said, a.count > 0, a.first);
    let two = put_if(piece, one, a.count > 1, a.second);
    let told = put_texts(piece, two, a.manner, out, &spans[..named]);
    let end = put_numbers(piece, told, a.negative, &numbers[..shown], a.from);
    put(piece, end, b'\n')
}
