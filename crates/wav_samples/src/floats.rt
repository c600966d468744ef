// W1. Float samples into f64, a block at a time. Every NaN must leave as one pattern, so each pattern would need a
// test. One test for a whole block, made of operations that a compiler applies to four patterns at once, shows for most
// blocks that they hold no NaN; these are then converted without a test for each sample.
ghost use Rattle.std.specs.Prelude.{◌≡◌, ℕ, ◌%◌, ◌≤◌, length, get_or};
ghost use Rattle.std.specs.Float.{binary32, binary64};
ghost use Rattle.std.specs.Float.Ieee.{of_bits};
ghost use Rattle.loop_laws.specs.Loops.{list_of};
ghost use Rattle.sample_kind.specs.declared.SampleKind.TheVariants.{Float32};
ghost use Rattle.wav_samples.specs.Samples.{sample_of};
ghost use Rattle.wav_samples.specs.Filling.{frames_of};
ghost use Rattle.wav_samples.specs.Frames.{Whole, Inside, patterns, NoneAbove};

use crate::by_frame::fill_by;
use crate::no_nan::{gathered, numbers, together};
use crate::widened;

// A file of one channel. A block is short enough for a compiler to unroll it into vector instructions without a loop.
pub(crate) fn of_one(first: usize, part: &[u8], out: &mut [f64])
    requires { Whole (length part.now) (length out.old) 4 first 4 }
    ensures { out.new ≡ frames_of (sample_of binary64 Float32 part.now) 4 first (length out.old) }
{
    let blocks = out.len() / 96;
    for b in 0..blocks {
        let k = b * 96;
        block_of_one(k * 4 + first, part, &mut out[k..k + 96]);
    }
    let end = blocks * 96;
    tested(4, end * 4 + first, part, &mut out[end..]);
}

// One channel of a file of two. 48 patterns fill twelve vector registers of plain x86-64. A block has one more, because
// a compiler that reads every second pattern by vectors reads the last one by itself.
pub(crate) fn of_two(first: usize, part: &[u8], out: &mut [f64])
    requires { Whole (length part.now) (length out.old) 8 first 4 }
    ensures { out.new ≡ frames_of (sample_of binary64 Float32 part.now) 8 first (length out.old) }
{
    let blocks = out.len() / 49;
    for b in 0..blocks {
        let k = b * 49;
        block_of_two(k * 8 + first, part, &mut out[k..k + 49]);
    }
    let end = blocks * 49;
    tested(8, end * 8 + first, part, &mut out[end..]);
}

fn block_of_one(first: usize, part: &[u8], out: &mut [f64])
    requires { Inside (length part.now) (length out.old) 4 first × (length out.old ≡ 96) }
    ensures { out.new ≡ frames_of (sample_of binary64 Float32 part.now) 4 first (length out.old) }
{
    let count = out.len();
    if numbers(together(4, first, part, count), 4, first, part, count) {
        untested(4, first, part, &mut out[..]);
    } else {
        tested(4, first, part, &mut out[..]);
    }
}

// The patterns are kept in an array, since reading every second one again costs more than keeping it.
fn block_of_two(first: usize, part: &[u8], out: &mut [f64])
    requires { Inside (length part.now) (length out.old) 8 first × (length out.old ≡ 49) }
    ensures { out.new ≡ frames_of (sample_of binary64 Float32 part.now) 8 first (length out.old) }
{
    let mut kept = [0u32; 49];
    if numbers(gathered(8, first, part, &mut kept), 8, first, part, 49) {
        handed(&kept, &mut out[..]);
    } else {
        tested(8, first, part, &mut out[..]);
    }
}

fn untested(frame: usize, first: usize, part: &[u8], out: &mut [f64])
    requires { Inside (length part.now) (length out.old) frame first
        × NoneAbove (patterns part.now frame first) (length out.old) 0x7f80_0000 }
    ensures { out.new ≡ frames_of (sample_of binary64 Float32 part.now) frame first
        (length out.old) }
{
    fill_by::<_, _, 4>(frame, first, part, out, of_number);
}

fn tested(frame: usize, first: usize, part: &[u8], out: &mut [f64])
    requires { Inside (length part.now) (length out.old) frame first }
    ensures { out.new ≡ frames_of (sample_of binary64 Float32 part.now) frame first
        (length out.old) }
{
    fill_by::<_, _, 4>(frame, first, part, out, widened);
}

fn handed(kept: &[u32], out: &mut [f64])
    requires { (length kept.now ≡ length out.old)
        × NoneAbove (λ (k : ℕ). get_or kept.now k 0) (length out.old) 0x7f80_0000 }
    ensures { out.new ≡ list_of (λ (k : ℕ). of_bits binary32 (get_or kept.now k 0)) (length out.old) }
{
    for (k, sample) in out.iter_mut().enumerate() {
        *sample = of_number(kept[k]);
    }
}

// The f64 of a pattern that is known not to be a NaN's, so that no test is needed.
fn of_number(n: u32) -> f64
    requires { n % 0x8000_0000 ≤ 0x7f80_0000 }
    ensures { result ≡ of_bits binary32 n }
{
    f32::from_bits(n) as f64
}
