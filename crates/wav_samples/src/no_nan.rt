// W1. Whether a block of float samples holds no NaN, found from all of its patterns at once. Without its sign bit, the
// pattern of a NaN is larger than that of an infinity.
ghost use Rattle.std.specs.Prelude.{◌≡◌, true, ◌%◌, ◌≤◌, length};
ghost use Rattle.loop_laws.specs.Loops.{list_of};
ghost use Rattle.wav_samples.specs.Frames.{Inside, patterns, NoneAbove};

use crate::places::four_at;

// All patterns combined by a bitwise or. Without its sign bit no pattern is larger than the result.
pub(crate) fn together(frame: usize, first: usize, part: &[u8], count: usize) -> u32
    requires { Inside (length part.now) count frame first }
    ensures { NoneAbove (patterns part.now frame first) count (result % 0x8000_0000) }
{
    let mut all: u32 = 0;
    for k in 0..count {
        all |= four_at(part, k * frame + first);
    }
    all
}

// The same, and each pattern is kept for the caller.
pub(crate) fn gathered(frame: usize, first: usize, part: &[u8], kept: &mut [u32]) -> u32
    requires { Inside (length part.now) (length kept.old) frame first }
    ensures none_above { NoneAbove (patterns part.now frame first) (length kept.old) (result % 0x8000_0000) }
    ensures kept_after { kept.new ≡ list_of (patterns part.now frame first) (length kept.old) }
{
    let mut all: u32 = 0;
    for (k, pattern) in kept.iter_mut().enumerate() {
        let n = four_at(part, k * frame + first);
        all |= n;
        *pattern = n;
    }
    all
}

// How many patterns are a NaN's. The loop does not stop at the first, so that a compiler can use vectors.
fn nans(frame: usize, first: usize, part: &[u8], count: usize) -> u32
    requires { Inside (length part.now) count frame first × (count ≤ 96) }
    ensures { result ≡ 0 → NoneAbove (patterns part.now frame first) count 0x7f80_0000 }
{
    let mut found: u32 = 0;
    for k in 0..count {
        found += one_if_nan(four_at(part, k * frame + first));
    }
    found
}

fn one_if_nan(n: u32) -> u32
    ensures upper_bound { result ≤ 1 }
    ensures n_bound { result ≡ 0 → n % 0x8000_0000 ≤ 0x7f80_0000 }
{
    if n % 0x8000_0000 > 0x7f80_0000 {
        return 1;
    }
    0
}

// Whether no pattern is a NaN's. If the combined pattern is below that of 2.0, so is every pattern, and the count is
// not needed.
pub(crate) fn numbers(all: u32, frame: usize, first: usize, part: &[u8], count: usize) -> bool
    requires { Inside (length part.now) count frame first × (count ≤ 96)
        × NoneAbove (patterns part.now frame first) count (all % 0x8000_0000) }
    ensures { result ≡ true → NoneAbove (patterns part.now frame first) count 0x7f80_0000 }
{
    if all % 0x8000_0000 < 0x4000_0000 {
        return true;
    }
    nans(frame, first, part, count) == 0
}
