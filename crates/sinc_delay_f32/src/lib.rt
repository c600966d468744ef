// The delay reader over a windowed sinc table of f32: it refuses by number, or stores the sample and then reads at the
// delay before it (000). The table is lent; its taps and phases are settings that every call takes.
#![tactic(auto)]

ghost use Rattle.std.specs.Prelude.{◌≡◌, ◌&&◌, eqb, length};
ghost use Rattle.sinc_settings.specs.Ranges.{taps_ok, phases_ok};
ghost use Rattle.sinc_settings.specs.Refusals.{table_length};
ghost use Rattle.sinc_read_f32.specs.Reading.{sinc_f32_at};
ghost use Rattle.variable_delay.specs.Reader.{verdict, ring_after};
ghost use Rattle.variable_delay_f32.specs.Call.{processed_f32_by};

use variable_delay::VariableDelay;
use variable_delay_f32::ProcessedF32;

pub fn process_sample<'a>(
    state: VariableDelay,
    ring: &mut [f32],
    input: f32,
    delay: f64,
    table: &'a [f32],
    taps: usize,
    phases: usize,
) -> ProcessedF32
    ensures value { result ≡ processed_f32_by (sinc_f32_at table.now taps phases)
        (verdict (taps_ok taps && phases_ok phases)
        (eqb (length table.now) (table_length taps phases)) state
        (length ring.old) input delay) state ring.old input delay }
    ensures ring_after { ring.new ≡ ring_after
        (verdict (taps_ok taps && phases_ok phases)
        (eqb (length table.now) (table_length taps phases)) state
        (length ring.old) input delay) state ring.old input }
{
    // These are the refusals 1 and 2 of the table. variable_delay_f32 puts them into their order among its own.
    let due = sinc_settings::table_refusal(taps, phases, table.len());
    let a = variable_delay_f32::accept(state, due != 1, due != 2, &mut ring[..], input, delay);
    let no = a.refusal;
    if no != 0 {
        return ProcessedF32 {
            state: state,
            answer: answer::answered_f32(no, 0.0),
        };
    }
    let y = sinc_read_f32::read(table, taps, phases, &ring[..], a.count, a.position);
    ProcessedF32 {
        state: VariableDelay {
            maximum: state.maximum,
            margin: state.margin,
            accepted: a.count,
        },
        answer: answer::answered_f32(0, y),
    }
}
