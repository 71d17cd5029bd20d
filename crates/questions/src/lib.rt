// The questions: the table with a row for each, in the order of the functions that answer them.
#![tactic(auto)]

use replies::answers::{Answer, Word};
use sayings::said;
use words::lines::{Line, take_line};

// Each question's verb, and a letter for each word behind it (`words`, shapes); the last letter stands for all further words, and `.` for none.
// One text a row: `words::take_line` takes rows of 20 bytes, and tells verb and letters apart.
const ROWS: [[u8; 20]; 14] = [
    *b"read tt.            ",
    *b"line fta            ",
    *b"batch fta           ",
    *b"env e               ",
    *b"suffix t.           ",
    *b"status n.           ",
    *b"entries t.          ",
    *b"lent-line ftttn     ",
    *b"lent-batch ftttn    ",
    *b"lent-env ttn        ",
    *b"lent-status nt.     ",
    *b"lent-read tttn      ",
    *b"argument twn        ",
    *b"lent-entries tn     ",
];

// Answers a question. Those of the first set stand in front.
pub fn ask(
    line: &[u8],
    text: &mut [u16],
    numbers: &mut [u32],
    out: &mut [u16],
    spans: &mut [u32],
) -> Answer {
    let Some(Line { row, held }) = take_line(&ROWS, line, text, numbers) else {
        return said(Word::Bad);
    };
    let text = &text[..held.units];
    let numbers = &mut numbers[..held.count];
    if row < requests::COUNT {
        requests::ask(row, text, numbers, out, spans)
    } else {
        loans::ask(row - requests::COUNT, text, numbers, out, spans)
    }
}
