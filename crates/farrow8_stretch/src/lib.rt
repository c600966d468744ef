// A whole stretch per call of the reader over Farrow8 (W3): the tests 1 to 3 are made once, and an item costs the tests
// 4 to 8, the store and the reading.
#![tactic(auto)]

ghost use Rattle.std.specs.Prelude.{◌≡◌, true, length};
ghost use Rattle.farrow8.specs.Kernel.{farrow_at};
ghost use Rattle.stretch.specs.Whole.{whole_of};
ghost use Rattle.stretch_call.specs.Items.{delay_reader, leaves, left_by};

use stretch_call::StretchAnswer;
use variable_delay::VariableDelay;

pub fn process_stretch(
    state: VariableDelay,
    ring: &mut [f64],
    inputs: &[f64],
    delays: &[f64],
    out: &mut [f64],
) -> StretchAnswer
    ensures { leaves result ring.new out.new ≡ left_by out.old
        (whole_of (delay_reader farrow_at true true)
        state ring.old inputs.now delays.now (length out.old)) }
{
    let n = inputs.len();
    let len = ring.len();
    // Farrow8 has no settings of its own and no lent table, so these two tests pass.
    let no_settings = true;
    let no_table = true;
    let no = stretch_call::refused_first(
        state,
        no_settings,
        no_table,
        len,
        n,
        delays.len(),
        out.len(),
    );
    if no != 0 {
        return StretchAnswer {
            state,
            done: 0,
            refusal: no,
        };
    }
    let mut i = state.accepted;
    for (k, &x) in inputs.iter().enumerate() {
        let y = delays[k];
        if !stretch_call::passes(i, x, y) {
            return StretchAnswer {
                state: VariableDelay {
                    accepted: i,
                    ..state
                },
                done: k,
                refusal: stretch_call::due(i, x, y),
            };
        }
        let at = (i & (len as u64 - 1)) as usize;
        ring[at] = x;
        let sample = farrow8::read(&ring[..], i + 1, (i as i64) as f64 - y);
        out[k] = bit_patterns::one_nan(sample);
        i += 1;
    }
    StretchAnswer {
        state: VariableDelay {
            accepted: i,
            ..state
        },
        done: n,
        refusal: 0,
    }
}
