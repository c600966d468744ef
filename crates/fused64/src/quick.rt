// The fused step of three values from 2^-255 to 2^257 in one word. The product is cut to a word, and the addend is
// added at its place without losing a digit. Every answer is a bit pattern, or 0 if the slow way has to be taken.
ghost use Rattle.std.specs.Prelude.{◌≡◌, ℕ, ◌+◌, ◌*◌, ◌/◌, ◌%◌, ◌^◌, ◌<◌, ◌≤◌, true};
ghost use Rattle.fused64.specs.Word.{Heads, Headed, Tells, Cutoff, Placed, Joined, Beside, Quick};

use crate::products::columns;

// The sign and the exponent field less 768; the field less 768 is below 512 for every value that this way serves.
fn head(bits: u64) -> u64
    ensures { (result + 768) % 2 ^ 64 ≡ bits / 2 ^ 52 }
{
    std::num::wrapping_sub_u64(bits >> 52, 768)
}

fn in_reach(f: u64, g: u64, h: u64) -> bool
    ensures { result ≡ true → Heads f g h }
{
    (f | g | h) & 0x7ff < 512
}

// The 53 digits of a normal value, with the leading 1 that the pattern leaves out.
fn digits_of(bits: u64) -> u64
    ensures { result ≡ bits % 2 ^ 52 + 2 ^ 52 }
{
    (bits & 0xf_ffff_ffff_ffff) | 0x10_0000_0000_0000
}

// The number hi * 2^64 + lo without its lowest 64 + d digits, made odd if any of them was set; `rest` is 0 exactly if
// lo is.
fn without(hi: u64, rest: u64, d: u64) -> u64
    requires fact_1 { d < 64 }
    requires fact_2 { hi < 2 ^ 62 }
    ensures { (lo : ℕ) → Tells rest lo → Cutoff hi lo d result }
{
    let t: u64 = hi >> d;
    float_digits::sticky(t, (hi - (t << d)) | rest)
}

// The number n at the place that g names, rounded once, with g's sign. It refuses (0) if n has fewer than 56 digits,
// because its last digit may stand for digits that were cut off.
fn placed(n: u64, g: u64) -> u64
    requires { Headed n g }
    ensures { 0 < result → Placed n g result }
{
    if n < 0x80_0000_0000_0000 {
        return 0;
    }
    let l: u64 = u64::leading_zeros(n) as u64;
    let t: u64 = n << (l - 1);
    let q: u64 = (t + (0x1ff + ((t >> 10) & 1))) >> 10;
    ((g - l) << 52) + q
}

// The sum, at the place e, of p with the sign s and z with the sign t. Digits of p may have been cut off, none of z.
fn joined(s: u64, p: u64, t: u64, z: u64, e: u64) -> u64
    requires { Beside s p t z e }
    ensures { 0 < result → Joined s p t z e result }
{
    if s == t {
        return placed(z + p, e + s);
    }
    if p < z {
        return placed(z - p, e + t);
    }
    placed(p - z, e + s)
}

// The locals i and j are the places of the product's higher word and of the addend, counted so that a number with l
// leading zeros at place e gets the exponent field e - l. The addend ends in eight zeros and loses fewer than eight
// digits: it stays exact and even, so a cut product added to it still ends in a 1.
pub(crate) fn quick(a: u64, b: u64, c: u64) -> u64
    ensures { 0 < result → Quick a b c result }
{
    let f = head(a);
    let g = head(b);
    let h = head(c);
    if in_reach(f, g, h) {
        let m = columns(digits_of(a) << 10, digits_of(b) << 10);
        let rest: u64 = (m.middle | m.low) & 0xffff_ffff;
        let z: u64 = digits_of(c) << 8;
        let k: u64 = f + g;
        let i: u64 = (k & 0x7ff) + 515;
        let j: u64 = (h & 0x7ff) + 770;
        let s: u64 = ((k >> 11) & 1) << 11;
        let t: u64 = ((h >> 11) & 1) << 11;
        if i <= j {
            if j - i < 64 {
                return joined(s, without(m.hi, rest, j - i), t, z, j);
            }
            return 0;
        }
        if i - j < 8 {
            return joined(s, without(m.hi, rest, 0), t, z >> (i - j), i);
        }
    }
    0
}
