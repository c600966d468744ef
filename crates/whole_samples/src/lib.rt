// A stored PCM sample as a float and as a whole number (W1). Only its lowest 16 or 24 digits count, in two's
// complement; nothing is rounded off.
#![tactic(auto)]

ghost use Rattle.std.specs.Prelude.{◌≡◌};
ghost use Rattle.std.specs.Float.{binary32, binary64};
ghost use Rattle.whole_samples.specs.Whole.{signed, whole_of, units_of};

// Half the range is added and subtracted again to avoid a branch; a compiler makes a sign extension of it.
pub fn signed16(n: u32) -> i32
    ensures { result ≡ signed 16 n }
{
    ((n % 0x1_0000 + 0x8000) % 0x1_0000) as i32 - 0x8000
}

pub fn signed24(n: u32) -> i32
    ensures { result ≡ signed 24 n }
{
    ((n % 0x100_0000 + 0x80_0000) % 0x100_0000) as i32 - 0x80_0000
}

// The result is a whole multiple of 2^-15, which an f64 holds exactly.
pub fn pcm16(n: u32) -> f64
    ensures { result ≡ whole_of binary64 16 n }
{
    signed16(n) as f64 * 0.000030517578125
}

// The result is a whole multiple of 2^-23, which an f64 holds exactly.
pub fn pcm24(n: u32) -> f64
    ensures { result ≡ whole_of binary64 24 n }
{
    signed24(n) as f64 * 0.00000011920928955078125
}

pub fn pcm16_f32(n: u32) -> f32
    ensures { result ≡ whole_of binary32 16 n }
{
    signed16(n) as f32 * 0.000030517578125
}

pub fn pcm24_f32(n: u32) -> f32
    ensures { result ≡ whole_of binary32 24 n }
{
    signed24(n) as f32 * 0.00000011920928955078125
}

// The unit is 2^-23, the step of 24-bit samples; a step of a 16-bit sample is 256 of them.
pub fn whole16(n: u32) -> i32
    ensures { result ≡ units_of 16 n }
{
    signed16(n) * 256
}

pub fn whole24(n: u32) -> i32
    ensures { result ≡ units_of 24 n }
{
    signed24(n)
}
