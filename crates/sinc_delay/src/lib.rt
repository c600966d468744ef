// The delay reader over a windowed sinc table: it refuses by number, or stores the sample and reads behind it (000).
// The table is lent; its taps and phases are settings that are handed in at every call.
#![tactic(auto)]

ghost use Rattle.std.specs.Prelude.{◌≡◌, ◌&&◌, eqb, length};
ghost use Rattle.sinc_settings.specs.Ranges.{taps_ok, phases_ok};
ghost use Rattle.sinc_settings.specs.Refusals.{table_length};
ghost use Rattle.sinc_read.specs.Reading.{sinc_at};
ghost use Rattle.variable_delay.specs.Reader.{processed_by, verdict, ring_after};

use variable_delay::{Processed, VariableDelay};

pub fn process_sample<'a>(
    state: VariableDelay,
    ring: &mut [f64],
    input: f64,
    delay: f64,
    table: &'a [f64],
    taps: usize,
    phases: usize,
) -> Processed
    ensures value { result ≡ processed_by (sinc_at table.now taps phases)
        (verdict (taps_ok taps && phases_ok phases)
        (eqb (length table.now) (table_length taps phases)) state
        (length ring.old) input delay) state ring.old input delay }
    ensures ring_after { ring.new ≡ ring_after
        (verdict (taps_ok taps && phases_ok phases)
        (eqb (length table.now) (table_length taps phases)) state
        (length ring.old) input delay) state ring.old input }
{
    // The refusals 1 and 2 of the table, as tests; variable_delay puts them into their order among its own.
    let due = sinc_settings::table_refusal(taps, phases, table.len());
    let a = variable_delay::accept(state, due != 1, due != 2, &mut ring[..], input, delay);
    let no = a.refusal;
    if no != 0 {
        return Processed {
            state: state,
            answer: answer::answered(no, 0.0),
        };
    }
    let y = sinc_read::read(table, taps, phases, &ring[..], a.count, a.position);
    Processed {
        state: VariableDelay {
            maximum: state.maximum,
            margin: state.margin,
            accepted: a.count,
        },
        answer: answer::answered(0, y),
    }
}
