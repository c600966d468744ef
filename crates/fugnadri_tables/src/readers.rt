// One call of a delay reader over a lent table for C (K1): takes the state's numbers, the ring and the table, writes
// the sample (0.0 if refused) and the count through pointers, and returns the refusal number, 0 for none. A name that
// ends in `_bits` hands the sample out as a bit pattern (O3).
ghost use Rattle.std.specs.Prelude.{◌≡◌};
ghost use Rattle.std.specs.Float.{binary64};
ghost use Rattle.fugnadri_tables.specs.Exports.{left_of};
ghost use Rattle.answer_parts.specs.States.{state_of};
ghost use Rattle.answer_parts.specs.Left.{leaves, in_bits};

use answer_parts::handing::handed;
use variable_delay::VariableDelay;

#[unsafe(no_mangle)]
pub extern "C" fn fugnadri_windowed_sinc_process<'a>(
    maximum: usize,
    margin: usize,
    accepted: &mut u64,
    ring: &mut [f64],
    input: f64,
    delay: f64,
    table: &'a [f64],
    taps: usize,
    phases: usize,
    sample: &mut f64,
) -> u8
    ensures { leaves result sample.new accepted.new ring.new
        ≡ left_of (state_of maximum margin accepted.old) ring.old input delay
        table.now taps phases }
{
    let state = VariableDelay {
        maximum: maximum,
        margin: margin,
        accepted: *accepted,
    };
    let p = sinc_delay::process_sample(state, &mut ring[..], input, delay, table, taps, phases);
    let after = p.state;
    let a = p.answer;
    handed(a, after.accepted, accepted, sample)
}

#[unsafe(no_mangle)]
pub extern "C" fn fugnadri_windowed_sinc_process_bits<'a>(
    maximum: usize,
    margin: usize,
    accepted: &mut u64,
    ring: &mut [f64],
    input: f64,
    delay: f64,
    table: &'a [f64],
    taps: usize,
    phases: usize,
    sample: &mut u64,
) -> u8
    ensures { leaves result sample.new accepted.new ring.new
        ≡ in_bits binary64 (left_of (state_of maximum margin accepted.old) ring.old input delay
        table.now taps phases) }
{
    let mut y: f64 = 0.0;
    let no = fugnadri_windowed_sinc_process(
        maximum, margin, accepted, ring, input, delay, table, taps, phases, &mut y,
    );
    *sample = bit_patterns::bits_of(y);
    no
}
