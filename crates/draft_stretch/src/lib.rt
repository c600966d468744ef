// A whole stretch per call of the reading that Draft makes, over a ring of f32 (W3): the tests 1 to 3 are made once,
// and an item costs the tests 4 to 8, the store and the reading. `quality_stretch` hands its items at rest in Draft to
// it.
#![tactic(auto)]

ghost use Rattle.std.specs.Prelude.{◌≡◌, true, eqb, length};
ghost use Rattle.cubic_farrow_f32.specs.Draft.{draft_at};
ghost use Rattle.stretch.specs.Whole.{whole_of};
ghost use Rattle.stretch_call.specs.Items.{item_due, delay_reader, leaves, left_by};

use constants::{LIMIT, LIMIT_F64};
use refusal_order::both;
use stretch_call::StretchAnswer;
use variable_delay::VariableDelay;

// Whether an item is accepted: `stretch_call::passes` for an f32 input, which no cast widens, since it may be a NaN.
fn passes(accepted: u64, input: f32, delay: f64) -> bool
    ensures { result ≡ eqb (item_due accepted input delay) 0 }
{
    let fine = both(
        magnitude::is_finite_f32(input),
        magnitude::within(delay, 0.0, LIMIT_F64),
    );
    both(accepted < LIMIT, fine)
}

pub fn process_stretch(
    state: VariableDelay,
    ring: &mut [f32],
    inputs: &[f32],
    delays: &[f64],
    out: &mut [f32],
) -> StretchAnswer
    ensures { leaves result ring.new out.new ≡ left_by out.old
        (whole_of (delay_reader draft_at true true)
        state ring.old inputs.now delays.now (length out.old)) }
{
    let n = inputs.len();
    let len = ring.len();
    // The cubic has no settings of its own and no lent table, so these two tests pass.
    let no_settings = true;
    let no_table = true;
    let no = stretch_call::refused_first(
        state,
        no_settings,
        no_table,
        len,
        n,
        delays.len(),
        out.len(),
    );
    if no != 0 {
        return StretchAnswer {
            state,
            done: 0,
            refusal: no,
        };
    }
    let mut i = state.accepted;
    for (k, &x) in inputs.iter().enumerate() {
        let y = delays[k];
        if !passes(i, x, y) {
            return StretchAnswer {
                state: VariableDelay {
                    accepted: i,
                    ..state
                },
                done: k,
                refusal: item_f32::due(i, x, y),
            };
        }
        let at = (i & (len as u64 - 1)) as usize;
        ring[at] = x;
        let sample = cubic_farrow_f32::read_quick(&ring[..], i + 1, (i as i64) as f64 - y);
        out[k] = bit_patterns::one_nan_f32(sample);
        i += 1;
    }
    StretchAnswer {
        state: VariableDelay {
            accepted: i,
            ..state
        },
        done: n,
        refusal: 0,
    }
}
