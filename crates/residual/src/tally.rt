// A report as plain numbers, while a stretch is counted. Its place is an index, 0 if there is none.
ghost use Rattle.std.specs.Prelude.{◌≡◌};
ghost use Rattle.residual.specs.Tallies.{tally_of, told_of};

use crate::Report;

#[derive(Clone, Copy)]
pub struct Tally {
    pub number: u64,
    pub largest: u32,
    pub index: u64,
    pub high: u64,
    pub low: u64,
}

pub(crate) fn taken(r: Report) -> Tally
    ensures { result ≡ tally_of r }
{
    Tally {
        number: r.number,
        largest: r.largest,
        index: r.place.unwrap_or(0),
        high: r.high,
        low: r.low,
    }
}

pub(crate) fn told(t: Tally) -> Report
    ensures { result ≡ told_of t }
{
    Report {
        number: t.number,
        largest: t.largest,
        place: (t.number != 0).then_some(t.index),
        high: t.high,
        low: t.low,
    }
}
