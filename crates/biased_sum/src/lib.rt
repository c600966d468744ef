// An f32 sum kept with a bias so large that an ordinary f64 addition rounds it at an f32's last digit (K4).
// Here are its definition and laws, how it begins, and four taps of it.
#![tactic(auto)]

ghost use Rattle.std.specs.Prelude.{◌≡◌, true, ◌&&◌, ◌-◌, ◌%◌, ◌≤◌, ◌<◌, leb};
ghost use Rattle.std.specs.Float.{binary64};
ghost use Rattle.std.specs.Float.Ieee.{add};
ghost use Rattle.biased_sum.specs.Sums.{all_taken, Advanced};
ghost use Rattle.biased_sum.specs.Beginning.{ends_for, no_bias, with_bias};

use refusal_order::both;

// A bias, and the two ends between which a biased sum has the right last digit.
#[derive(Drop)]
struct Ends {
    bias: f64,
    low: f64,
    high: f64,
}

// A sum to which the bias has been added; the other fields mean something only if `fine`.
#[derive(Drop)]
pub struct Start {
    pub fine: bool,
    pub bias: f64,
    pub low: f64,
    pub high: f64,
    pub sum: f64,
}

// `h` is the sign and exponent field of 2^e. The bias is 2^(e+29) - 2^e; the ends are bias + 2^(e-1) and bias +
// 2^(e+1). Each is an offset from the pattern of 2^(e+29).
fn ends_of(h: u64) -> Ends
    requires { (h < 4096) × (899 ≤ h % 2048) × (h % 2048 ≤ 1148) }
    ensures { result ≡ ends_for (leb 2048 h) (h % 2048 - 898) }
{
    let big: u64 = (h + 29) * 0x0010_0000_0000_0000;
    let bias = f64::from_bits(big - 0x0100_0000);
    let near = f64::from_bits(big - 0x0080_0000);
    let far = f64::from_bits(big + 0x0080_0000);
    if h < 2048 {
        return Ends {
            bias: bias,
            low: near,
            high: far,
        };
    }
    Ends {
        bias: bias,
        low: far,
        high: near,
    }
}

fn no_bias() -> Start
    ensures { result ≡ no_bias }
{
    Start {
        fine: false,
        bias: 0.0,
        low: 0.0,
        high: 0.0,
        sum: 0.0,
    }
}

// Adds the bias for the power of two near the sum; from about 1.414 times a power on, that is the next power, so that
// the sum may grow or shrink without leaving the ends. An f32 that is accepted is held exactly (`begins` in
// proofs/BiasTests.antt).
pub fn with_bias(sum: f64) -> Start
    ensures { result ≡ with_bias sum }
{
    if sum != sum {
        return no_bias();
    }
    let h: u64 = (f64::to_bits(sum) + 0x0009_5f62_0000_0000) / 0x0010_0000_0000_0000;
    let f = h % 2048;
    if f < 899 {
        return no_bias();
    }
    if f > 1148 {
        return no_bias();
    }
    let e = ends_of(h);
    let s = sum + e.bias;
    Start {
        fine: both(e.low < s, s < e.high),
        bias: e.bias,
        low: e.low,
        high: e.high,
        sum: s,
    }
}

// A biased sum after four more products; `sum` means something only if `fine`.
#[derive(Drop)]
pub struct Added {
    pub fine: bool,
    pub sum: f64,
}

// Adds four products to a biased sum; `fine` if no sum on the way leaves the ends.
pub fn advance(p: f64, q: f64, s: f64, t: f64, low: f64, high: f64, sum: f64) -> Added
    ensures sum_value { result.sum ≡ add binary64 t (add binary64 s (add binary64 q (add binary64 p sum))) }
    ensures fine_value { result.fine ≡ all_taken low high sum p q s t }
    ensures advanced { result.fine ≡ true → Advanced low high sum p q s t result.sum }
{
    let a = p + sum;
    let b = q + a;
    let c = s + b;
    let d = t + c;
    let first = both(both(low < a, a < high), both(low < b, b < high));
    let last = both(both(low < c, c < high), both(low < d, d < high));
    Added {
        fine: both(first, last),
        sum: d,
    }
}
