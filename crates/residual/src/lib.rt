// The residual of two stretches of samples in whole numbers, over many calls, all exact (W13).
// It is how many samples were compared, the largest absolute difference, where that stands first, and the sum of the
// squared differences.
#![tactic(auto)]

mod checks; // which refusal is given
mod steps; // the counting
mod parts; // a block's squares, in sums of 32 bits
mod tally; // a report as plain numbers

ghost use Rattle.std.specs.Prelude.{◌≡◌};
ghost use Rattle.residual.specs.Report.{empty_report};
ghost use Rattle.residual.specs.Refusals.{compared_of};

use checks::due;
use steps::counted;

// The place is where the largest difference stands first, counted over all calls from the first sample compared; an
// empty report has none. The sum is high * 2^64 + low.
#[derive(Clone, Copy)]
pub struct Report {
    pub number: u64,
    pub largest: u32,
    pub place: Option<u64>,
    pub high: u64,
    pub low: u64,
}

#[derive(Clone, Copy)]
pub enum Compared {
    Carried(Report),
    Refused(u8),
}

pub fn empty() -> Report
    ensures { result ≡ empty_report }
{
    Report {
        number: 0,
        largest: 0,
        place: None,
        high: 0,
        low: 0,
    }
}

// Refuses by 1, 2, 3 or 8, or extends the report by two stretches.
pub fn compare(report: Report, a: &[i32], b: &[i32]) -> Compared
    ensures { result ≡ compared_of report a.now b.now }
{
    let no = due(report, a, b);
    if no != 0 {
        return Compared::Refused(no);
    }
    Compared::Carried(counted(report, a, b))
}
