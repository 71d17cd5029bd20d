// A text's one form: units 33 to 126 but braces stand for themselves, every other is `{hex}`. Where colons have a meaning of their own, a colon is `{3a}`.
ghost use Rattle.std.specs.Prelude.{◌≡◌, ◌<◌, IfSome};
ghost use Rattle.forms.specs.Form.{is_plain, hex_value, step_of, step_outside, step_opened, step_inside};

// Where a reader of a form stands: between two units, behind a `{`, or behind digits, with their value.
#[derive(Clone, Copy, Debug, PartialEq, Eq)]
pub enum Spot {
    Outside,
    Opened,
    Inside(u16),
}

// What the next byte of a form comes to: a unit is whole, or the form goes on.
#[derive(Clone, Copy, Debug, PartialEq, Eq)]
pub enum Step {
    Unit(u16),
    Still(Spot),
}

// Whether a unit stands for itself.
#[tactic(auto, using(std::proofs::lemmas::Bool::Decides::nat_tests), unfolding(crate::specs::Form::is_plain))]
pub fn is_plain(colons: bool, unit: u16) -> bool
    ensures { result ≡ is_plain colons unit }
{
    match u8::try_from(unit) {
        Ok(b'{' | b'}') => false,
        Ok(b':') => colons,
        Ok(byte) => byte.is_ascii_graphic(),
        Err(_) => false,
    }
}

// The value of a hexadecimal digit in lower case.
#[tactic(auto, using(std::proofs::lemmas::Bool::Decides::nat_tests), unfolding(crate::specs::Form::hex_value))]
fn hex_value(byte: u8) -> Option<u16>
    ensures value { result ≡ hex_value byte }
    ensures small { IfSome result (λ digit. digit < 16) }
{
    match byte {
        b'0'..=b'9' => Some(u16::from(byte - b'0')),
        b'a'..=b'f' => Some(u16::from(byte - b'a' + 10)),
        _ => None,
    }
}

// Between two units.
fn step_outside(colons: bool, byte: u8) -> Option<Step>
    ensures { result ≡ step_outside colons byte }
{
    let unit = u16::from(byte);
    if is_plain(colons, unit) {
        Some(Step::Unit(unit))
    } else if byte == b'{' {
        Some(Step::Still(Spot::Opened))
    } else {
        None
    }
}

// Behind a `{`.
fn step_opened(byte: u8) -> Option<Step>
    ensures { result ≡ step_opened byte }
{
    let digit = hex_value(byte)?;
    Some(Step::Still(Spot::Inside(digit)))
}

// Behind digits of the value given. No digit follows a single 0 or four digits, so that a number has one form.
fn step_inside(colons: bool, value: u16, byte: u8) -> Option<Step>
    ensures { result ≡ step_inside colons value byte }
{
    match byte {
        b'}' if is_plain(colons, value) => None,
        b'}' => Some(Step::Unit(value)),
        _ if value == 0 || value > 0xfff => None,
        _ => {
            let digit = hex_value(byte)?;
            Some(Step::Still(Spot::Inside(value * 16 + digit)))
        }
    }
}

// What a byte comes to at a spot of a form, where it is one.
pub fn take_byte(colons: bool, spot: Spot, byte: u8) -> Option<Step>
    ensures { result ≡ step_of colons spot byte }
{
    match spot {
        Spot::Outside => step_outside(colons, byte),
        Spot::Opened => step_opened(byte),
        Spot::Inside(value) => step_inside(colons, value, byte),
    }
}
