// A whole stretch per call for VariableDelayF32 over a windowed sinc table (W3): the single calls in order, up to the
// first that is refused. The refusals 1 to 3 are tested once, before the first item.
#![tactic(auto)]

mod items; // one item, and two neighbours

ghost use Rattle.std.specs.Prelude.{◌≡◌};
ghost use Rattle.stretch_call.specs.Items.{leaves};
ghost use Rattle.sinc_stretch_f32.specs.Reader.{left_f32};

use items::{served, served_two};
use stretch_call::StretchAnswer;
use variable_delay::VariableDelay;

fn ended(state: VariableDelay, accepted: u64, done: usize, refusal: u8) -> StretchAnswer
    ensures { result ≡ record {
      state = record { maximum = state.maximum; margin = state.margin; accepted = accepted };
      done = done;
      refusal = refusal;
    } }
{
    StretchAnswer {
        state: VariableDelay { accepted, ..state },
        done,
        refusal,
    }
}

// Fills `out` from the inputs, each read at its delay, two items at a time. Of the state only the count changes, so a
// number holds it.
pub fn process_stretch<'a>(
    state: VariableDelay,
    ring: &mut [f32],
    inputs: &'a [f32],
    delays: &'a [f64],
    out: &mut [f32],
    table: &'a [f32],
    taps: usize,
    phases: usize,
) -> StretchAnswer
    ensures { leaves result ring.new out.new ≡ left_f32 table.now taps phases state
        ring.old inputs.now delays.now out.old }
{
    let n = inputs.len();
    let due = sinc_settings::table_refusal(taps, phases, table.len());
    let no = stretch_call::refused_first(
        state,
        due != 1,
        due != 2,
        ring.len(),
        n,
        delays.len(),
        out.len(),
    );
    if no != 0 {
        return ended(state, state.accepted, 0, no);
    }
    let mut i = state.accepted;
    let mut k: usize = 0;
    // By hand: (2) a `for` over the pairs, with `k = 2 * pair`, was tried: three instructions more a pair (callgrind).
    while n - k >= 2 {
        let t = served_two(
            i,
            &mut ring[..],
            inputs[k],
            delays[k],
            inputs[k + 1],
            delays[k + 1],
            table,
            taps,
            phases,
        );
        if t.first != 0 {
            return ended(state, i, k, t.first);
        }
        out[k] = t.a;
        i += 1;
        k += 1;
        if t.second != 0 {
            return ended(state, i, k, t.second);
        }
        out[k] = t.b;
        i += 1;
        k += 1;
    }
    if k < n {
        let t = served(i, &mut ring[..], inputs[k], delays[k], table, taps, phases);
        if t.refusal != 0 {
            return ended(state, i, k, t.refusal);
        }
        out[k] = t.sample;
        return ended(state, i + 1, k + 1, 0);
    }
    ended(state, i, k, 0)
}
