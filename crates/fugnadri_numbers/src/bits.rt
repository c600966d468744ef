// The number functions for C on bit patterns (O3). Every NaN is accepted; the only NaNs handed out are 7FF8000000000000
// and 7FC00000.
ghost use Rattle.std.specs.Prelude.{◌≡◌};
ghost use Rattle.std.specs.Float.{binary32, binary64};
ghost use Rattle.std.specs.Float.Ieee.{of_bits, to_bits};
ghost use Rattle.rounding.specs.Operations.{narrowed, fused, root};
ghost use Rattle.integer_part.specs.Parts.{fraction_of};

#[unsafe(no_mangle)]
pub extern "C" fn fugnadri_bits_of(x: f64) -> u64
    ensures { result ≡ to_bits binary64 x }
{
    bit_patterns::bits_of(x)
}

#[unsafe(no_mangle)]
pub extern "C" fn fugnadri_float_of(n: u64) -> f64
    ensures { result ≡ of_bits binary64 n }
{
    bit_patterns::float_of(n)
}

#[unsafe(no_mangle)]
pub extern "C" fn fugnadri_bits_of_f32(a: f32) -> u32
    ensures { result ≡ to_bits binary32 a }
{
    bit_patterns::bits_of_f32(a)
}

#[unsafe(no_mangle)]
pub extern "C" fn fugnadri_float_of_f32(n: u32) -> f32
    ensures { result ≡ of_bits binary32 n }
{
    bit_patterns::float_of_f32(n)
}

#[unsafe(no_mangle)]
pub extern "C" fn fugnadri_narrow_bits(x: u64) -> u32
    ensures { result ≡ to_bits binary32 (narrowed (of_bits binary64 x)) }
{
    bit_patterns::bits_of_f32(narrowing::narrow(bit_patterns::float_of(x)))
}

#[unsafe(no_mangle)]
pub extern "C" fn fugnadri_fused32_bits(a: u32, b: u32, c: u32) -> u32
    ensures { result ≡
        to_bits binary32 (fused binary32 (of_bits binary32 a) (of_bits binary32 b) (of_bits binary32 c)) }
{
    let x = bit_patterns::float_of_f32(a);
    let y = bit_patterns::float_of_f32(b);
    let z = bit_patterns::float_of_f32(c);
    bit_patterns::bits_of_f32(fused32::fused32(x, y, z))
}

#[unsafe(no_mangle)]
pub extern "C" fn fugnadri_fused64_bits(a: u64, b: u64, c: u64) -> u64
    ensures { result ≡
        to_bits binary64 (fused binary64 (of_bits binary64 a) (of_bits binary64 b) (of_bits binary64 c)) }
{
    let x = bit_patterns::float_of(a);
    let y = bit_patterns::float_of(b);
    let z = bit_patterns::float_of(c);
    bit_patterns::bits_of(fused64::fused64(x, y, z))
}

#[unsafe(no_mangle)]
pub extern "C" fn fugnadri_square_root_bits(x: u64) -> u64
    ensures { result ≡ to_bits binary64 (root binary64 (of_bits binary64 x)) }
{
    bit_patterns::bits_of(square_root::square_root(bit_patterns::float_of(x)))
}

#[unsafe(no_mangle)]
pub extern "C" fn fugnadri_fraction_bits(x: u64) -> u64
    ensures { result ≡ to_bits binary64 (fraction_of (of_bits binary64 x)) }
{
    bit_patterns::bits_of(integer_part::fraction(bit_patterns::float_of(x)))
}
