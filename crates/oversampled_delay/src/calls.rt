// One call: it is refused by number and changes nothing, or it goes through all phases.
ghost use Rattle.std.specs.Prelude.{◌≡◌};
ghost use Rattle.oversampled_delay.specs.Reader.{from_of, lent_of, called, processed_of};

use super::{Lengths, OversampledVariableDelay, Processed, phases, refusals};
use kernels::Kernel;

// 000's `previous_delay` at the first phase: the first call starts at its own delay.
fn start(state: OversampledVariableDelay, delay: f64) -> f64
    ensures { result ≡ from_of state delay }
{
    if state.accepted == 0 {
        delay
    } else {
        state.previous
    }
}

// 000's process_sample. What is refused is tested before anything is pushed, so that a refused call leaves the filters,
// the inner ring and the previous delay as they were; 000 pushes first.
pub fn process_sample<'a>(
    state: OversampledVariableDelay,
    kernel: Kernel,
    table: &'a [f64],
    coefficients: &'a [f64],
    up: &mut [f64],
    down: &mut [f64],
    ring: &mut [f64],
    input: f64,
    delay: f64,
) -> Processed
    ensures value { result ≡
        processed_of (called kernel state (lent_of table.now coefficients.now up.old
        down.old ring.old) input delay) }
    ensures up_after { up.new ≡
        (called kernel state (lent_of table.now coefficients.now up.old
        down.old ring.old) input delay).up }
    ensures down_after { down.new ≡
        (called kernel state (lent_of table.now coefficients.now up.old
        down.old ring.old) input delay).down }
    ensures ring_after { ring.new ≡
        (called kernel state (lent_of table.now coefficients.now up.old
        down.old ring.old) input delay).ring }
{
    let lengths = Lengths {
        table: table.len(),
        coefficients: coefficients.len(),
        up: up.len(),
        down: down.len(),
        ring: ring.len(),
    };
    let no = refusals::refusal(state, kernel, lengths, input, delay);
    if no != 0 {
        return Processed {
            state,
            answer: answer::answered(no, 0.0),
        };
    }
    fir_filter::push_number(&mut up[..], state.accepted, input);
    let inner = phases::phases(
        state,
        kernel,
        table,
        coefficients,
        &up[..],
        &mut down[..],
        &mut ring[..],
        start(state, delay),
        delay,
    );
    let accepted = state.accepted + 1;
    let y = fir_filter::output(
        coefficients,
        &down[..],
        state.factor as u64 * accepted,
        1,
        0,
    );
    Processed {
        state: OversampledVariableDelay {
            accepted,
            inner,
            previous: delay,
            ..state
        },
        answer: answer::answered(0, y),
    }
}
