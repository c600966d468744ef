// The delay reader over the cubic kernel: it refuses by number, or stores the sample and reads behind it (000).
#![tactic(auto)]

ghost use Rattle.std.specs.Prelude.{◌≡◌, true, length};
ghost use Rattle.variable_delay.specs.Reader.{processed, verdict, ring_after};
ghost use Rattle.cubic_farrow.specs.Cubic.{cubic_at};

use variable_delay::{Processed, VariableDelay};

pub fn process_sample(state: VariableDelay, ring: &mut [f64], input: f64, delay: f64) -> Processed
    ensures value { result ≡ processed cubic_at state ring.old input delay }
    ensures ring_after { ring.new ≡
        ring_after (verdict true true state (length ring.old) input delay) state ring.old input }
{
    // A cubic has no settings of its own and no lent table, so these two tests pass.
    let no_settings = true;
    let no_table = true;
    let a = variable_delay::accept(state, no_settings, no_table, &mut ring[..], input, delay);
    let no = a.refusal;
    if no != 0 {
        return Processed {
            state: state,
            answer: answer::answered(no, 0.0),
        };
    }
    let y = cubic_farrow::read(&ring[..], a.count, a.position);
    Processed {
        state: VariableDelay {
            maximum: state.maximum,
            margin: state.margin,
            accepted: a.count,
        },
        answer: answer::answered(0, y),
    }
}
