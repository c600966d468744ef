// A whole stretch per call of the reader over a windowed sinc table (W3): the tests 1 to 3 are made once, and an item
// costs the tests 4 to 8, the store and the reading. The table is lent; its taps and phases are settings that are
// handed in at every call.
#![tactic(auto)]

ghost use Rattle.std.specs.Prelude.{◌≡◌, ◌&&◌, length, eqb};
ghost use Rattle.sinc_settings.specs.Ranges.{taps_ok, phases_ok};
ghost use Rattle.sinc_settings.specs.Refusals.{table_length};
ghost use Rattle.sinc_read.specs.Reading.{sinc_at};
ghost use Rattle.stretch.specs.Whole.{whole_of};
ghost use Rattle.stretch_call.specs.Items.{delay_reader, leaves, left_by};

use stretch_call::StretchAnswer;
use variable_delay::VariableDelay;

pub fn process_stretch<'a>(
    state: VariableDelay,
    ring: &mut [f64],
    inputs: &[f64],
    delays: &[f64],
    out: &mut [f64],
    table: &'a [f64],
    taps: usize,
    phases: usize,
) -> StretchAnswer
    ensures { leaves result ring.new out.new ≡ left_by out.old
        (whole_of (delay_reader (sinc_at table.now taps phases) (taps_ok taps && phases_ok phases)
        (eqb (length table.now) (table_length taps phases)))
        state ring.old inputs.now delays.now (length out.old)) }
{
    let n = inputs.len();
    let len = ring.len();
    // The refusals 1 and 2 of the table, as tests; they stand in their order among the others.
    let due = sinc_settings::table_refusal(taps, phases, table.len());
    let no = stretch_call::refused_first(
        state,
        due != 1,
        due != 2,
        len,
        n,
        delays.len(),
        out.len(),
    );
    if no != 0 {
        return StretchAnswer {
            state,
            done: 0,
            refusal: no,
        };
    }
    let mut i = state.accepted;
    for (k, &x) in inputs.iter().enumerate() {
        let y = delays[k];
        if !stretch_call::passes(i, x, y) {
            return StretchAnswer {
                state: VariableDelay {
                    accepted: i,
                    ..state
                },
                done: k,
                refusal: stretch_call::due(i, x, y),
            };
        }
        let at = (i & (len as u64 - 1)) as usize;
        ring[at] = x;
        let sample = sinc_read::read(table, taps, phases, &ring[..], i + 1, (i as i64) as f64 - y);
        out[k] = bit_patterns::one_nan(sample);
        i += 1;
    }
    StretchAnswer {
        state: VariableDelay {
            accepted: i,
            ..state
        },
        done: n,
        refusal: 0,
    }
}
