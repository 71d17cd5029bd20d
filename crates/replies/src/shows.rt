// Numbers, units and texts in their forms.
ghost use Rattle.forms.specs.Form.{each, shown_unit, shown};
ghost use Rattle.replies.specs.Page.{Puts};
ghost use Rattle.replies.specs.Show.{decimal, number_bytes};

use crate::places::{Place, put, put_each, put_run};
use forms::steps::is_plain;
use octets::digits::{put_braced, put_digits};

// A number in decimal.
fn put_decimal(piece: &mut [u8], p: Place, number: u64) -> Place
    ensures { Puts (decimal number) p result piece.old piece.new }
{
    let mut digits = [0u8; 20];
    let n = put_digits(&mut digits, 0, 10, number);
    put_run(piece, p, &digits[..n])
}

// A space and a number, with its sign.
pub fn put_number(piece: &mut [u8], p: Place, negative: bool, number: u64) -> Place
    ensures { Puts (number_bytes negative number) p result piece.old piece.new }
{
    let next = if negative {
        put_run(piece, p, b" -")
    } else {
        put(piece, p, b' ')
    };
    put_decimal(piece, next, number)
}

// A unit in its form.
fn put_unit(piece: &mut [u8], p: Place, colons: bool, unit: u16) -> Place
    ensures { Puts (shown_unit colons unit) p result piece.old piece.new }
{
    if is_plain(colons, unit) {
        return put(piece, p, unit as u8);
    }
    let mut braces = [0u8; 6];
    let n = put_braced(&mut braces, 0, unit);
    put_run(piece, p, &braces[..n])
}

// A text.
pub fn put_text(piece: &mut [u8], p: Place, colons: bool, text: &[u16]) -> Place
    ensures { Puts (shown colons text.now) p result piece.old piece.new }
{
    if text.is_empty() {
        return put_run(piece, p, b"{}");
    }
    put_each(
        piece,
        p,
        text,
        |piece, to, unit| put_unit(piece, to, colons, unit),
    )
}
