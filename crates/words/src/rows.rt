// The rows of a table: each is a verb, a space, a letter for each word behind it, and spaces to its end. The last letter stands for all further words.
ghost use Rattle.std.specs.Prelude.{◌≡◌, ◌<◌, length, IfSome};
ghost use Rattle.rules.specs.Choice.{equal};
ghost use Rattle.words.specs.Line.{verb_in, letters_in, row_of};

use octets::{find, same};

// Whether a row's verb is the word.
fn is_verb(row: &[u8], word: &[u8]) -> bool
    ensures { result ≡ equal (verb_in row.now) word.now }
{
    same(&row[..find(row, b' ')], word)
}

// The index of the row whose verb is the word.
pub fn row_of(rows: &[[u8; 20]], word: &[u8]) -> Option<usize>
    ensures first { result ≡ row_of rows.now word.now }
    ensures within { IfSome result (λ row. row < length rows.now) }
{
    rows.iter().position(|row| is_verb(row, word))
}

// A row's letters.
pub fn letters_of(row: &[u8]) -> &[u8]
    ensures { result.now ≡ letters_in row.now }
{
    let verb = find(row, b' ');
    let rest = row.get(verb + 1..).unwrap_or_default();
    &rest[..find(rest, b' ')]
}
