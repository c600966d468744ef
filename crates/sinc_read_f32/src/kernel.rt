// What a lent table of f32 reads, and what is refused.
ghost use Rattle.std.specs.Prelude.{◌≡◌, length};
ghost use Rattle.answer.specs.Answers.{answer_f32_of};
ghost use Rattle.sinc_read.specs.Reading.{sample_verdict};
ghost use Rattle.sinc_read_f32.specs.Reading.{sinc_f32_at, read_of};

use crate::absent::scattered;
use crate::sums::held;
use answer::AnswerF32;

// The reading at a position in range. If every tap is held, the fast path tests none of them.
fn at<'a>(
    table: &'a [f32],
    taps: usize,
    phases: usize,
    source: &'a [f32],
    count: u64,
    position: f64,
) -> f32
    requires { sample_verdict taps phases (length table.now) position ≡ 0 }
    ensures { result ≡ sinc_f32_at table.now taps phases source.now count position }
{
    let between = sinc_phases::phase_at(position, phases);
    let phase = between.phase;
    let blend = narrowing::narrow(between.blend);
    let first = sinc_phases::first_tap(position, taps);
    let start = ring::run_start(source.len(), count, first, taps as u64);
    let place = start.place;
    if start.held {
        held(table, taps, phase, blend, source, place, taps)
    } else {
        scattered(table, taps, phase, blend, source, count, first)
    }
}

// The reading at a position; zero if a setting or the position is out of range, or if the table has another length.
pub fn read<'a>(
    table: &'a [f32],
    taps: usize,
    phases: usize,
    source: &'a [f32],
    count: u64,
    position: f64,
) -> f32
    ensures { result ≡ read_of table.now taps phases source.now count position }
{
    if sinc_read::refusal(taps, phases, table.len(), position) == 0 {
        at(table, taps, phases, source, count, position)
    } else {
        0.0
    }
}

// The reading of a lent slice by a lent table. It is refused by 1 if a setting or the position is out of range, and by
// 2 if the table has another length.
pub fn sample<'a>(
    table: &'a [f32],
    taps: usize,
    phases: usize,
    source: &'a [f32],
    count: u64,
    position: f64,
) -> AnswerF32
    ensures { result ≡ answer_f32_of (sample_verdict taps phases (length table.now) position)
        (read_of table.now taps phases source.now count position) }
{
    let no = sinc_read::refusal(taps, phases, table.len(), position);
    answer::answered_f32(no, read(table, taps, phases, source, count, position))
}
