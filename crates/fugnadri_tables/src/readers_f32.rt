// K1. The calls of `readers` for f32 samples and tables.
ghost use Rattle.std.specs.Prelude.{◌≡◌};
ghost use Rattle.std.specs.Float.{binary32};
ghost use Rattle.fugnadri_tables.specs.Exports.{left_f32_of};
ghost use Rattle.answer_parts.specs.States.{state_of};
ghost use Rattle.answer_parts.specs.Left.{leaves, in_bits};

use answer_parts::handing::handed_f32;
use variable_delay::VariableDelay;

#[unsafe(no_mangle)]
pub extern "C" fn fugnadri_windowed_sinc_f32_process<'a>(
    maximum: usize,
    margin: usize,
    accepted: &mut u64,
    ring: &mut [f32],
    input: f32,
    delay: f64,
    table: &'a [f32],
    taps: usize,
    phases: usize,
    sample: &mut f32,
) -> u8
    ensures { leaves result sample.new accepted.new ring.new
        ≡ left_f32_of (state_of maximum margin accepted.old) ring.old input delay
        table.now taps phases }
{
    let state = VariableDelay {
        maximum: maximum,
        margin: margin,
        accepted: *accepted,
    };
    let p = sinc_delay_f32::process_sample(state, &mut ring[..], input, delay, table, taps, phases);
    let after = p.state;
    let a = p.answer;
    handed_f32(a, after.accepted, accepted, sample)
}

#[unsafe(no_mangle)]
pub extern "C" fn fugnadri_windowed_sinc_f32_process_bits<'a>(
    maximum: usize,
    margin: usize,
    accepted: &mut u64,
    ring: &mut [f32],
    input: f32,
    delay: f64,
    table: &'a [f32],
    taps: usize,
    phases: usize,
    sample: &mut u32,
) -> u8
    ensures { leaves result sample.new accepted.new ring.new
        ≡ in_bits binary32 (left_f32_of (state_of maximum margin accepted.old) ring.old input delay
        table.now taps phases) }
{
    let mut y: f32 = 0.0;
    let no = fugnadri_windowed_sinc_f32_process(
        maximum, margin, accepted, ring, input, delay, table, taps, phases, &mut y,
    );
    *sample = bit_patterns::bits_of_f32(y);
    no
}
