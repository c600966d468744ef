// A table's reading of a lent slice at a position for C (K3): returns the refusal number, 0 for none, and writes the
// sample (0.0 if refused) through a pointer. A name that ends in `_bits` hands it out as a bit pattern (O3).
ghost use Rattle.std.specs.Prelude.{◌≡◌, length};
ghost use Rattle.std.specs.Float.{binary32, binary64};
ghost use Rattle.answer.specs.Answers.{answer_of, answer_f32_of};
ghost use Rattle.sinc_read.specs.Reading.{sample_verdict, read_of};
ghost use Rattle.sinc_read_f32.specs.Reading as single;
ghost use Rattle.answer_parts.specs.Left.{tells, told_by, told_f32_by, told_in_bits};

use answer_parts::{number, number_f32, value, value_f32};

#[unsafe(no_mangle)]
pub extern "C" fn fugnadri_windowed_sinc_sample<'a>(
    table: &'a [f64],
    taps: usize,
    phases: usize,
    source: &'a [f64],
    count: u64,
    position: f64,
    sample: &mut f64,
) -> u8
    ensures { tells result sample.new
        ≡ told_by (answer_of (sample_verdict taps phases (length table.now) position)
        (read_of table.now taps phases source.now count position)) }
{
    let a = sinc_read::sample(table, taps, phases, source, count, position);
    *sample = value(a);
    number(a)
}

#[unsafe(no_mangle)]
pub extern "C" fn fugnadri_windowed_sinc_sample_bits<'a>(
    table: &'a [f64],
    taps: usize,
    phases: usize,
    source: &'a [f64],
    count: u64,
    position: f64,
    sample: &mut u64,
) -> u8
    ensures { tells result sample.new
        ≡ told_in_bits binary64 (told_by (answer_of (sample_verdict taps phases (length table.now) position)
        (read_of table.now taps phases source.now count position))) }
{
    let a = sinc_read::sample(table, taps, phases, source, count, position);
    *sample = bit_patterns::bits_of(value(a));
    number(a)
}

#[unsafe(no_mangle)]
pub extern "C" fn fugnadri_windowed_sinc_f32_sample<'a>(
    table: &'a [f32],
    taps: usize,
    phases: usize,
    source: &'a [f32],
    count: u64,
    position: f64,
    sample: &mut f32,
) -> u8
    ensures { tells result sample.new
        ≡ told_f32_by (answer_f32_of (sample_verdict taps phases (length table.now) position)
        (single.read_of table.now taps phases source.now count position)) }
{
    let a = sinc_read_f32::sample(table, taps, phases, source, count, position);
    *sample = value_f32(a);
    number_f32(a)
}

#[unsafe(no_mangle)]
pub extern "C" fn fugnadri_windowed_sinc_f32_sample_bits<'a>(
    table: &'a [f32],
    taps: usize,
    phases: usize,
    source: &'a [f32],
    count: u64,
    position: f64,
    sample: &mut u32,
) -> u8
    ensures { tells result sample.new
        ≡ told_in_bits binary32 (told_f32_by (answer_f32_of (sample_verdict taps phases (length table.now) position)
        (single.read_of table.now taps phases source.now count position))) }
{
    let a = sinc_read_f32::sample(table, taps, phases, source, count, position);
    *sample = bit_patterns::bits_of_f32(value_f32(a));
    number_f32(a)
}
