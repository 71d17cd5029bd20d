// Building a line as a state by value: the passes over the records, and how the state moves from one record and one pass to the next.
ghost use Rattle.std.specs.Prelude.{◌≡◌};
ghost use Rattle.building.specs.Works.{begun_at, entered};

use adding::styles::Style;
use rules::Line;

// What a pass does with each record: judge the record; judge the units that it names, and count the most that they can take; count its form; write it.
#[derive(Clone, Copy)]
pub enum Pass {
    Records,
    Units,
    Measure,
    Write,
}

// Where building stands: how many records there are, the units that the pass has counted, how many records it has taken, the line's style, and the pass.
#[derive(Clone, Copy)]
pub struct Work {
    pub count: usize,
    pub units: usize,
    pub at: usize,
    pub style: Style,
    pub pass: Pass,
}

// What a turn comes to that is not refused: building goes on, or the line is built.
// No `ControlFlow`: these names say what a turn comes to.
#[derive(Clone, Copy)]
pub enum Turn {
    On(Work),
    Done(Line),
}

// Before the first pass over so many records.
pub fn begin(batch: bool, force: bool, count: usize) -> Work
    ensures { result ≡ begun_at batch force count 0 }
{
    Work {
        count,
        units: 0,
        at: 0,
        style: Style { batch, force },
        pass: Pass::Records,
    }
}

// Behind the first pass, where the records are judged already.
pub(crate) fn begin_judged(batch: bool, force: bool, count: usize) -> Work
    ensures { result ≡ begun_at batch force count count }
{
    Work {
        at: count,
        ..begin(batch, force, count)
    }
}

// Into another pass, with so many units.
pub(crate) fn enter(work: Work, pass: Pass, units: usize) -> Work
    ensures { result ≡ entered work pass units }
{
    Work {
        units,
        at: 0,
        pass,
        ..work
    }
}
