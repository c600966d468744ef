// What C calls of Farrow8: a reading over a lent slice, a count and a position (G3; a plain slice is a ring whose count
// is its length), and a call of the delay reader over it (K1), each with the sample as a float and as a bit pattern
// (O3). Each returns the refusal number, 0 for none, and writes the sample, 0.0 if refused, through a pointer; a reader
// writes its count too.
ghost use Rattle.std.specs.Prelude.{◌≡◌, cond};
ghost use Rattle.std.specs.Float.{binary64};
ghost use Rattle.answer.specs.Answers.{answer_of};
ghost use Rattle.ring.specs.Places.{position_ok};
ghost use Rattle.farrow8.specs.Kernel.{read_of, farrow_at};
ghost use Rattle.answer_parts.specs.States.{state_of};
ghost use Rattle.answer_parts.specs.Left.{tells, told_by, told_in_bits, leaves, in_bits};
ghost use Rattle.fugnadri.specs.Exports.{left_of};

use answer_parts::handing::handed;
use answer_parts::{number, value};
use variable_delay::VariableDelay;

#[unsafe(no_mangle)]
pub extern "C" fn fugnadri_farrow8_sample(
    source: &[f64],
    count: u64,
    position: f64,
    sample: &mut f64,
) -> u8
    ensures { tells result sample.new
        ≡ told_by (answer_of (cond (position_ok position) 0 1) (read_of source.now count position)) }
{
    let a = farrow8::sample(source, count, position);
    *sample = value(a);
    number(a)
}

#[unsafe(no_mangle)]
pub extern "C" fn fugnadri_farrow8_sample_bits(
    source: &[f64],
    count: u64,
    position: f64,
    sample: &mut u64,
) -> u8
    ensures { tells result sample.new
        ≡ told_in_bits binary64 (told_by (answer_of (cond (position_ok position) 0 1)
        (read_of source.now count position))) }
{
    let a = farrow8::sample(source, count, position);
    *sample = bit_patterns::bits_of(value(a));
    number(a)
}

#[unsafe(no_mangle)]
pub extern "C" fn fugnadri_farrow8_process(
    maximum: usize,
    margin: usize,
    accepted: &mut u64,
    ring: &mut [f64],
    input: f64,
    delay: f64,
    sample: &mut f64,
) -> u8
    ensures { leaves result sample.new accepted.new ring.new
        ≡ left_of farrow_at (state_of maximum margin accepted.old) ring.old input delay }
{
    let state = VariableDelay {
        maximum: maximum,
        margin: margin,
        accepted: *accepted,
    };
    let p = farrow8_delay::process_sample(state, &mut ring[..], input, delay);
    let after = p.state;
    let a = p.answer;
    handed(a, after.accepted, accepted, sample)
}

// This goes through the call above, so that the reader is called at one place only and is compiled into it.
#[unsafe(no_mangle)]
pub extern "C" fn fugnadri_farrow8_process_bits(
    maximum: usize,
    margin: usize,
    accepted: &mut u64,
    ring: &mut [f64],
    input: f64,
    delay: f64,
    sample: &mut u64,
) -> u8
    ensures { leaves result sample.new accepted.new ring.new
        ≡ in_bits binary64 (left_of farrow_at
        (state_of maximum margin accepted.old) ring.old input delay) }
{
    let mut value = 0.0;
    let no = fugnadri_farrow8_process(
        maximum,
        margin,
        &mut *accepted,
        &mut ring[..],
        input,
        delay,
        &mut value,
    );
    *sample = bit_patterns::bits_of(value);
    no
}
