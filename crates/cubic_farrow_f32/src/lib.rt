// The original's cubic_sample_f32 (000), which the quality Draft reads, over a slice, a count and a position.
#![tactic(auto)]

ghost use Rattle.std.specs.Prelude.{◌≡◌, true, ◌+◌, ◌≤◌, ◌^◌, pos, ◌+ℤ◌, ◌-ℤ◌, length, get_or};
ghost use Rattle.std.specs.Int.Signed.{mag};
ghost use Rattle.std.specs.Float.{binary32, nan};
ghost use Rattle.magnitude.specs.Bounds.{AtMost};
ghost use Rattle.rounding.specs.Operations.{narrowed};
ghost use Rattle.ring.specs.Taps.{tap_of};
ghost use Rattle.ring.specs.Places.{position_ok};
ghost use Rattle.cubic_farrow.specs.Cubic.{weighed};
ghost use Rattle.cubic_farrow_f32.specs.Draft.{draft_at, read_of};

// The Lagrange basis for the nodes -1, 0, 1, 2, every step rounded to f32. As in `cubic_farrow`, the signs of c0 and c2
// are moved outside, which is exact.
fn weigh(mu: f32, xm1: f32, x0: f32, x1: f32, x2: f32) -> f32
    ensures { result ≡ weighed binary32 mu xm1 x0 x1 x2 }
{
    let middle = (mu + 1.0) * mu;
    let c0 = mu * (mu - 1.0) * (mu - 2.0) / 6.0;
    let c1 = (mu + 1.0) * (mu - 1.0) * (mu - 2.0) / 2.0;
    let c2 = middle * (mu - 2.0) / 2.0;
    let c3 = middle * (mu - 1.0) / 6.0;
    -(xm1 * c0) + x0 * c1 - x1 * c2 + x2 * c3
}

// Four taps that stand side by side are read without a test for each.
fn side_by_side(source: &[f32], p: usize, mu: f32) -> f32
    requires { p + 4 ≤ length source.now }
    ensures { result ≡ weighed binary32 mu (get_or source.now p nan) (get_or source.now (p + 1) nan)
        (get_or source.now (p + 2) nan) (get_or source.now (p + 3) nan) }
{
    weigh(mu, source[p], source[p + 1], source[p + 2], source[p + 3])
}

// The four taps around an index, each with its test.
fn one_by_one(source: &[f32], count: u64, i: i64, mu: f32) -> f32
    requires { mag i ≤ 2 ^ 36 }
    ensures { result ≡ weighed binary32 mu (tap_of source.now count (i -ℤ pos 1))
        (tap_of source.now count i) (tap_of source.now count (i +ℤ pos 1))
        (tap_of source.now count (i +ℤ pos 2)) }
{
    let xm1 = ring::tap_f32(source, count, i - 1);
    let x0 = ring::tap_f32(source, count, i);
    let x1 = ring::tap_f32(source, count, i + 1);
    let x2 = ring::tap_f32(source, count, i + 2);
    weigh(mu, xm1, x0, x1, x2)
}

// The nearest f32 of a fraction. Fast path: a fraction is not negative and mostly a normal f32, so its pattern is
// rounded as `narrowing` does, without the sign.
fn single(x: f64) -> f32
    requires { AtMost 1 x }
    ensures { result ≡ narrowed x }
{
    let b: u64 = f64::to_bits(x);
    if b >= 0x3810_0000_0000_0000 {
        if b < 0x47f0_0000_0000_0000 {
            let r = (b - 0x3800_0000_0000_0000 + (0x0fff_ffff + ((b >> 29) & 1))) >> 29;
            return f32::from_bits(r as u32);
        }
    }
    narrowing::narrow(x)
}

fn at(source: &[f32], count: u64, position: f64) -> f32
    requires { position_ok position ≡ true }
    ensures { result ≡ draft_at source.now count position }
{
    let i = integer_part::floor(position);
    let mu = narrowing::narrow(position - (i as f64));
    one_by_one(source, count, i, mu)
}

// Fast path: if the four taps are held side by side they are read without a test for each. Outside the range of
// positions the answer is 0.0.
pub fn read(source: &[f32], count: u64, position: f64) -> f32
    ensures { result ≡ read_of source.now count position }
{
    if ring::position_ok(position) {
        let first = integer_part::floor(position) - 1;
        let s = ring::run_start(source.len(), count, first, 4);
        let p = s.place;
        if s.held {
            if p + 4 <= source.len() {
                return side_by_side(source, p, single(integer_part::fraction(position)));
            }
        }
        return at(source, count, position);
    }
    0.0
}

// The same reading for a loop over samples. The compiler puts a function that has one caller into it, so the fast path
// stands here once more, and everything else is a call of `read`.
pub fn read_quick(source: &[f32], count: u64, position: f64) -> f32
    ensures { result ≡ read_of source.now count position }
{
    if ring::position_ok(position) {
        let first = integer_part::floor(position) - 1;
        let s = ring::run_start(source.len(), count, first, 4);
        let p = s.place;
        if s.held {
            if p + 4 <= source.len() {
                return side_by_side(source, p, single(integer_part::fraction(position)));
            }
        }
    }
    read(source, count, position)
}
