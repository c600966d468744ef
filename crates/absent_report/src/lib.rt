// How many samples of a channel read absent taps, of each kind, and where the last of them stands, so that silence in a
// file and absence can be told apart (W7). The numbers are carried over blocks. They are those of absent_taps'
// definition at the positions read: a sample's frame, its delay and the ring's length say which taps it lacks.
#![tactic(auto)]

mod samples; // one sample more

ghost use Rattle.std.specs.Prelude.{◌≡◌};
ghost use Rattle.absent_report.specs.Samples.{no_sample, read_in, counted_in};

use samples::{number_read, with_sample};

// A sample that read taps of two kinds is counted under both, and once under `samples`.
#[derive(Clone, Copy)]
pub struct AbsentReport {
    // How many samples read an absent tap, of whatever kind.
    pub samples: u64,
    pub unwritten: u64,
    pub ahead: u64,
    pub overwritten: u64,
    // The frame of the last of them, 0 if there is none.
    pub last: u64,
}

pub fn nothing() -> AbsentReport
    ensures { result ≡ no_sample }
{
    AbsentReport {
        samples: 0,
        unwritten: 0,
        ahead: 0,
        overwritten: 0,
        last: 0,
    }
}

// The report with a block more: `frames` samples, or fewer if there are fewer delays, each read at its delay by 32 taps
// from a ring of length `len` that had accepted `accepted` samples before the block.
pub fn counted(
    report: AbsentReport,
    len: usize,
    accepted: u64,
    delays: &[f64],
    frames: usize,
) -> AbsentReport
    ensures { result ≡ counted_in report len accepted (read_in accepted frames delays.now) }
{
    let n = number_read(accepted, frames, delays.len());
    let read = &delays[..n];
    let mut after = report;
    for (k, delay) in read.iter().enumerate() {
        after = with_sample(after, len, accepted + k as u64, *delay);
    }
    after
}
