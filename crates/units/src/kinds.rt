// The kinds of arguments: the one place in code that reads their numbers.
ghost use Rattle.std.specs.Prelude.{◌≡◌};
ghost use Rattle.rules.specs.Record.{is_regular, is_no_kind};
ghost use Rattle.units.specs.Kind.{kind_of};

// How an argument is written: by the rules, or as it is.
#[derive(Clone, Copy, Debug, PartialEq, Eq)]
pub enum Kind {
    Regular,
    Raw,
}

// A number that is no kind.
#[derive(Clone, Copy, Debug, PartialEq, Eq)]
pub struct NoKind(pub u32);

impl TryFrom<u32> for Kind {
    type Error = NoKind;

    ghost try_from_gives = { λ number r. r ≡ kind_of number };

    fn try_from(number: u32) -> Result<Self, NoKind> {
        match number {
            0 => Ok(Kind::Regular),
            1 => Ok(Kind::Raw),
            _ => Err(NoKind(number)),
        }
    }
}

// Whether an argument of this kind is written by the rules, and not as it is.
pub fn is_regular(kind: u32) -> bool
    ensures { result ≡ is_regular kind }
{
    matches!(Kind::try_from(kind), Ok(Kind::Regular))
}

// Whether a number is no kind.
pub fn is_no_kind(kind: u32) -> bool
    ensures { result ≡ is_no_kind kind }
{
    Kind::try_from(kind).is_err()
}
