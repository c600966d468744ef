// One sample more in a report, and how many of a block's samples are read.
ghost use Rattle.std.specs.Prelude.{◌≡◌, ◌-◌, ◌^◌, ◌<◌, min, [], ◌∷◌};
ghost use Rattle.constants.specs.Numbers.{limit};
ghost use Rattle.absent_report.specs.Samples.{some_of, later_of, plus_of, counted_in};
ghost use Rattle.absent_report.specs.Inner.{with_absent};

use crate::AbsentReport;
use absent_taps::Absent;
use constants::LIMIT;

// How many of a block's samples are read. A reader refuses every sample past the 2^36th.
pub(crate) fn number_read(accepted: u64, frames: usize, delays: usize) -> usize
    ensures { result ≡ min (min frames delays) (limit - accepted) }
{
    let room = LIMIT.saturating_sub(accepted) as usize;
    frames.min(delays).min(room)
}

pub(crate) fn with_sample(report: AbsentReport, len: usize, frame: u64, delay: f64) -> AbsentReport
    requires { frame < 2 ^ 36 }
    ensures { result ≡ counted_in report len frame (delay ∷ []) }
{
    let position = std::num::nearest_u64_to_f64(frame) - delay;
    with_absent(
        report,
        frame,
        absent_taps::missing(len, frame + 1, position, 32),
    )
}

fn with_absent(report: AbsentReport, frame: u64, s: Absent) -> AbsentReport
    ensures { result ≡ with_absent frame s report }
{
    let any = some(s.unwritten) + some(s.ahead) + some(s.overwritten);
    AbsentReport {
        samples: more(report.samples, any),
        unwritten: more(report.unwritten, s.unwritten),
        ahead: more(report.ahead, s.ahead),
        overwritten: more(report.overwritten, s.overwritten),
        last: later(any, frame, report.last),
    }
}

// 1 if there are any taps, else 0.
fn some(taps: u64) -> u64
    ensures { result ≡ some_of taps }
{
    taps.min(1)
}

fn later(taps: u64, frame: u64, before: u64) -> u64
    ensures { result ≡ later_of taps frame before }
{
    if taps == 0 { before } else { frame }
}

// A number of samples, and one more if this one read such taps. It stops at the largest word, which no reader reaches.
fn more(samples: u64, taps: u64) -> u64
    ensures { result ≡ plus_of samples (some_of taps) }
{
    samples.saturating_add(some(taps))
}
