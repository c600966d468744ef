// The number functions for C on floats. Where an argument's NaN could come out unchanged, `bit_patterns::one_nan`
// replaces it (O3); narrowing, the fused steps and the root already give the one NaN.
ghost use Rattle.std.specs.Prelude.{◌≡◌, ◌*◌, ◌%◌, ◌^◌};
ghost use Rattle.std.specs.Float.{binary32, binary64};
ghost use Rattle.rounding.specs.Operations.{narrowed, fused, root};
ghost use Rattle.integer_part.specs.Parts.{floor_of, fraction_of};
ghost use Rattle.min_max.specs.Choice.{larger, smaller, clamped};

// K4. Rust's `as f32`.
#[unsafe(no_mangle)]
pub extern "C" fn fugnadri_narrow(x: f64) -> f32
    ensures { result ≡ narrowed x }
{
    narrowing::narrow(x)
}

// K4. Rust's f32::mul_add.
#[unsafe(no_mangle)]
pub extern "C" fn fugnadri_fused32(a: f32, b: f32, c: f32) -> f32
    ensures { result ≡ fused binary32 a b c }
{
    fused32::fused32(a, b, c)
}

// K4. Rust's f64::mul_add.
#[unsafe(no_mangle)]
pub extern "C" fn fugnadri_fused64(a: f64, b: f64, c: f64) -> f64
    ensures { result ≡ fused binary64 a b c }
{
    fused64::fused64(a, b, c)
}

// K4. Rust's sqrt.
#[unsafe(no_mangle)]
pub extern "C" fn fugnadri_square_root(x: f64) -> f64
    ensures { result ≡ root binary64 x }
{
    square_root::square_root(x)
}

// K3. Rust's floor() as i64.
#[unsafe(no_mangle)]
pub extern "C" fn fugnadri_floor(x: f64) -> i64
    ensures { result ≡ floor_of x }
{
    integer_part::floor(x)
}

// K3. x minus its floor.
#[unsafe(no_mangle)]
pub extern "C" fn fugnadri_fraction(x: f64) -> f64
    ensures { result ≡ fraction_of x }
{
    bit_patterns::one_nan(integer_part::fraction(x))
}

// Rust's f64::max.
#[unsafe(no_mangle)]
pub extern "C" fn fugnadri_max(x: f64, least: f64) -> f64
    ensures { result ≡ larger x least }
{
    bit_patterns::one_nan(min_max::max(x, least))
}

// Rust's f64::min.
#[unsafe(no_mangle)]
pub extern "C" fn fugnadri_min(x: f64, most: f64) -> f64
    ensures { result ≡ smaller x most }
{
    bit_patterns::one_nan(min_max::min(x, most))
}

// Rust's f32::min.
#[unsafe(no_mangle)]
pub extern "C" fn fugnadri_min_f32(a: f32, b: f32) -> f32
    ensures { result ≡ smaller a b }
{
    bit_patterns::one_nan_f32(min_max::min_f32(a, b))
}

// Rust's f64::clamp.
#[unsafe(no_mangle)]
pub extern "C" fn fugnadri_clamp(x: f64, low: f64, high: f64) -> f64
    ensures { result ≡ clamped x low high }
{
    bit_patterns::one_nan(min_max::clamp(x, low, high))
}

// Rust's f32::clamp.
#[unsafe(no_mangle)]
pub extern "C" fn fugnadri_clamp_f32(a: f32, low: f32, high: f32) -> f32
    ensures { result ≡ clamped a low high }
{
    bit_patterns::one_nan_f32(min_max::clamp_f32(a, low, high))
}

// M3. Rust's u64::wrapping_mul.
#[unsafe(no_mangle)]
pub extern "C" fn fugnadri_wrapping_mul(a: u64, b: u64) -> u64
    ensures { result ≡ a * b % 2 ^ 64 }
{
    wrapping_u64::wrapping_mul(a, b)
}

// M3. Rust's << of a u64, for every count.
#[unsafe(no_mangle)]
pub extern "C" fn fugnadri_shl(a: u64, n: u64) -> u64
    ensures { result ≡ a * 2 ^ n % 2 ^ 64 }
{
    wrapping_u64::shl(a, n)
}
