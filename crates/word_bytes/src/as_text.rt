// Words as text: sixteen hex digits in capitals, the highest first.
ghost use Rattle.std.specs.Prelude.{◌≡◌, ◌<◌, ◌≤◌, length, take, drop};
ghost use Rattle.word_bytes.specs.Hex.{hex_digits, hex_value, digit_of};
ghost use Rattle.word_bytes.specs.Hex.{glyph as Hex·glyph};

use crate::part;

pub fn hex16(n: u64) -> [u8; 16]
    ensures { result ≡ hex_digits 16 n }
{
    let mut out = [0u8; 16];
    let mut v = n;
    for k in (0..16).rev() {
        out[k] = glyph(v % 16);
        v /= 16;
    }
    out
}

fn glyph(d: u64) -> u8
    requires { d < 16 }
    ensures { result ≡ Hex·glyph d }
{
    if d < 10 { 48 + d as u8 } else { 55 + d as u8 }
}

// The word whose sixteen hex digits stand at a place of s; digits past the end are left out.
pub fn word_at(s: &[u8], at: usize) -> u64
    ensures { result ≡ hex_value 0 (take 16 (drop at s.now)) }
{
    read_hex(part(s, at, 16))
}

fn read_hex(s: &[u8]) -> u64
    requires { length s.now ≤ 16 }
    ensures { result ≡ hex_value 0 s.now }
{
    let mut v: u64 = 0;
    for c in s {
        v = v * 16 + digit_of(*c);
    }
    v
}

fn digit_of(c: u8) -> u64
    ensures value { result ≡ digit_of c }
    ensures upper_bound { result < 16 }
{
    if c < 48 {
        return 0;
    }
    if c < 58 {
        return c as u64 - 48;
    }
    if c < 65 {
        return 0;
    }
    if c < 71 {
        return c as u64 - 55;
    }
    0
}
