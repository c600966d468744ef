// The delay reader over the Lagrange kernel: it refuses by number, or stores the sample and reads behind it (000).
// The taps are a setting that is handed in at every call.
#![tactic(auto)]

ghost use Rattle.std.specs.Prelude.{◌≡◌, true, length};
ghost use Rattle.variable_delay.specs.Reader.{processed_by, verdict, ring_after};
ghost use Rattle.lagrange.specs.Kernel.{taps_ok, lagrange_at};

use variable_delay::{Processed, VariableDelay};

pub fn process_sample(
    state: VariableDelay,
    ring: &mut [f64],
    input: f64,
    delay: f64,
    taps: u64,
) -> Processed
    ensures value { result ≡ processed_by (lagrange_at taps)
        (verdict (taps_ok taps) true state (length ring.old) input delay) state
        ring.old input delay }
    ensures ring_after { ring.new ≡ ring_after
        (verdict (taps_ok taps) true state (length ring.old) input delay) state ring.old input }
{
    let own = lagrange::taps_ok(taps);
    // No table is lent, so its test passes.
    let no_table = true;
    let a = variable_delay::accept(state, own, no_table, &mut ring[..], input, delay);
    let no = a.refusal;
    if no != 0 {
        return Processed {
            state: state,
            answer: answer::answered(no, 0.0),
        };
    }
    let y = lagrange::read(&ring[..], a.count, a.position, taps);
    Processed {
        state: VariableDelay {
            maximum: state.maximum,
            margin: state.margin,
            accepted: a.count,
        },
        answer: answer::answered(0, y),
    }
}
