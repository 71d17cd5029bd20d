// The most units of a line, and the count of a line's units, which stops at a cap.
ghost use Rattle.std.specs.Prelude.{◌≡◌};
ghost use Rattle.adding.specs.Limits.{limit_of, counted};

// The most units of an ordinary line that is built.
const LINE_LIMIT: usize = 32766;

// The most units of a batch line that is built.
const BATCH_LIMIT: usize = LINE_LIMIT;

// A count stops here. What reaches it is past the limit of every line, and no sum over many records wraps.
pub const COUNT_CAP: usize = 65536;

// The most units of a line of either kind.
pub fn limit_of(batch: bool) -> usize
    ensures { result ≡ limit_of batch }
{
    if batch { BATCH_LIMIT } else { LINE_LIMIT }
}

// Units and some more, up to the cap.
pub fn count_on(units: usize, more: usize) -> usize
    ensures { result ≡ counted units more }
{
    units.saturating_add(more).min(COUNT_CAP)
}
