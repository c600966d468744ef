// K3, N1, N2. The reading at a position, and the number of the refusal.
ghost use Rattle.std.specs.Prelude.{◌≡◌, length};
ghost use Rattle.answer.specs.Answers.{answer_of};
ghost use Rattle.sinc_read.specs.Reading.{sinc_at, read_of, sample_verdict};

use crate::sums::{held, one_by_one};
use answer::Answer;
use sinc_phases::{first_tap, phase_at};

// N1, N2. The number of the refusal, 0 for none: first the taps, the phases and the position, then the table's length.
// Both widths use it.
pub fn refusal(taps: usize, phases: usize, len: usize, position: f64) -> u8
    ensures { result ≡ sample_verdict taps phases len position }
{
    if ring::position_ok(position) {
        sinc_settings::table_refusal(taps, phases, len)
    } else {
        1
    }
}

// The reading at a position in range. Fast path: if every tap is held none is tested.
fn at<'a>(
    table: &'a [f64],
    taps: usize,
    phases: usize,
    source: &'a [f64],
    count: u64,
    position: f64,
) -> f64
    requires { sample_verdict taps phases (length table.now) position ≡ 0 }
    ensures { result ≡ sinc_at table.now taps phases source.now count position }
{
    let between = phase_at(position, phases);
    let phase = between.phase;
    let blend = between.blend;
    let first = first_tap(position, taps);
    let start = ring::run_start(source.len(), count, first, taps as u64);
    let place = start.place;
    if start.held {
        held(table, taps, phase, blend, source, place)
    } else {
        one_by_one(table, taps, phase, blend, source, count, first)
    }
}

// If a setting or the position is out of range, or the table has another length, the reading is zero.
pub fn read<'a>(
    table: &'a [f64],
    taps: usize,
    phases: usize,
    source: &'a [f64],
    count: u64,
    position: f64,
) -> f64
    ensures { result ≡ read_of table.now taps phases source.now count position }
{
    if refusal(taps, phases, table.len(), position) == 0 {
        at(table, taps, phases, source, count, position)
    } else {
        0.0
    }
}

// N1, N2. A setting or a position out of range is refused by 1, a table of another length by 2.
pub fn sample<'a>(
    table: &'a [f64],
    taps: usize,
    phases: usize,
    source: &'a [f64],
    count: u64,
    position: f64,
) -> Answer
    ensures { result ≡ answer_of (sample_verdict taps phases (length table.now) position)
        (read_of table.now taps phases source.now count position) }
{
    let no = refusal(taps, phases, table.len(), position);
    answer::answered(no, read(table, taps, phases, source, count, position))
}
