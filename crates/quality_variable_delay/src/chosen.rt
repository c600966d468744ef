// The reader's call over two sets that its caller has chosen and tested (W4).
ghost use Rattle.std.specs.Prelude.{◌≡◌, ◌^◌, ◌<◌, length};
ghost use Rattle.variable_delay.specs.Reader.{stored};
ghost use Rattle.quality_variable_delay.specs.Reader.{output_of, processed_by};
ghost use Rattle.quality_variable_delay.specs.Chosen.{read_by, chosen_call, ring_chosen};

use super::state::fading;
use super::storing::{after, store};
use super::turns::mix;
use super::{ProcessedQ, QualityVariableDelayF32, cleared};
use bank_choice::Choice;
use quality_fade::Turn;
use quality_mode::QualityMode;

// What a turn reads. Both readings of a mixed call are of the same two sets.
fn output<'a>(
    turn: Turn,
    sets: &'a [f32],
    choice: Choice,
    source: &'a [f32],
    count: u64,
    position: f64,
) -> f32
    ensures { result ≡
        output_of (read_by choice sets.now) turn source.now count position }
{
    let from = turn.from;
    let to = turn.to;
    let left = turn.state;
    if turn.mixed {
        let a = bank_read::read(sets, choice, from, source, count, position);
        let b = bank_read::read(sets, choice, to, source, count, position);
        return mix(a, b, turn.weight, left.crossfade_samples);
    }
    bank_read::read(sets, choice, to, source, count, position)
}

// A call that nothing refuses: it stores the sample and then reads.
fn accepted<'a>(
    state: QualityVariableDelayF32,
    ring: &mut [f32],
    sets: &'a [f32],
    choice: Choice,
    input: f32,
    delay: f64,
    quality: QualityMode,
) -> ProcessedQ
    requires { (state.accepted < 2 ^ 36) × (0 < length ring.old) }
    ensures value { result ≡
        processed_by (read_by choice sets.now) 0 state ring.old input delay quality }
    ensures ring_after { ring.new ≡ stored state.accepted ring.old input }
{
    let i = state.accepted;
    let position = store(i, &mut ring[..], input, delay);
    let ruled = returning_fade::step(fading(state), quality);
    let turn = ruled.turn;
    let direction = ruled.direction;
    let left = turn.state;
    let y = output(turn, sets, choice, &ring[..], i + 1, position);
    ProcessedQ {
        state: after(state, direction, left),
        answer: answer::answered_f32(0, y),
    }
}

// W4. process_sample_rate_aware where the caller has chosen the sets and made the tests of the rate and of what is lent
// besides the ring: `bank` that the rate is in range (1), `lent` that the lengths agree (2).
pub fn process_chosen<'a>(
    state: QualityVariableDelayF32,
    ring: &mut [f32],
    sets: &'a [f32],
    choice: Choice,
    bank: bool,
    lent: bool,
    input: f32,
    delay: f64,
    quality: QualityMode,
    playback_rate: f64,
) -> ProcessedQ
    ensures value { result ≡
        chosen_call choice sets.now bank lent state ring.old input delay quality
        playback_rate }
    ensures ring_after { ring.new ≡
        ring_chosen bank lent state ring.old input delay playback_rate }
{
    let no = cleared::number(state, bank, lent, ring.len(), input, delay, playback_rate);
    if no != 0 {
        return ProcessedQ {
            state: state,
            answer: answer::answered_f32(no, 0.0),
        };
    }
    accepted(state, &mut ring[..], sets, choice, input, delay, quality)
}
