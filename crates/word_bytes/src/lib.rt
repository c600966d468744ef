// Words as bytes, low byte first, and as text in hex digits, both written and read (X1, X2).
// Hex digits have capital letters, the highest digit first. A slice may have any length, and a place may lie past its
// end: bytes that are missing count as 0.
#![tactic(auto)]

mod as_bytes; // low byte first
mod as_text; // hex digits

ghost use Rattle.std.specs.Prelude.{◌≡◌, ◌≤◌, length, take, drop};

pub use as_bytes::{low_first, low_first_bytes, low_first_bytes_u32, low_first_u32, write_bytes};
pub use as_text::{hex16, word_at};

// Up to `count` bytes of s from a place on; fewer if s ends before that.
pub fn part(s: &[u8], at: usize, count: usize) -> &[u8]
    ensures result_value { result.now ≡ take count (drop at s.now) }
    ensures result_len_bound { length result.now ≤ count }
{
    if s.len() <= at {
        return &s[..0];
    }
    if count < s.len() - at {
        let end = at + count;
        return &s[at..end];
    }
    &s[at..]
}
