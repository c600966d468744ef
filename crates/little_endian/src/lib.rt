// Numbers of two, three and four bytes, low byte first (W1).
// They are read at a place of a slice, where bytes that are missing count as 0, or made of bytes that have been read
// already.
#![tactic(auto)]

ghost use Rattle.std.specs.Prelude.{◌≡◌, [], ◌∷◌, ◌<◌, take, drop};
ghost use Rattle.word_bytes.specs.Bytes.{bytes_value};

use word_bytes::low_first_u32;

pub fn two(s: &[u8], at: usize) -> u32
    ensures value { result ≡ bytes_value (take 2 (drop at s.now)) }
    ensures upper_bound { result < 0x1_0000 }
{
    low_first_u32(s, at) % 0x1_0000
}

pub fn three(s: &[u8], at: usize) -> u32
    ensures value { result ≡ bytes_value (take 3 (drop at s.now)) }
    ensures upper_bound { result < 0x100_0000 }
{
    low_first_u32(s, at) % 0x100_0000
}

#[tactic(auto, unfolding(word_bytes::specs::Bytes::bytes_value))]
pub fn of_two(a: u8, b: u8) -> u32
    ensures value { result ≡ bytes_value (a ∷ b ∷ []) }
    ensures upper_bound { result < 0x1_0000 }
{
    u32::from(a) + u32::from(b) * 0x100
}

#[tactic(auto, unfolding(word_bytes::specs::Bytes::bytes_value))]
pub fn of_three(a: u8, b: u8, c: u8) -> u32
    ensures value { result ≡ bytes_value (a ∷ b ∷ c ∷ []) }
    ensures upper_bound { result < 0x100_0000 }
{
    of_two(a, b) + u32::from(c) * 0x1_0000
}

#[tactic(auto, unfolding(word_bytes::specs::Bytes::bytes_value))]
pub fn of_four(a: u8, b: u8, c: u8, d: u8) -> u32
    ensures { result ≡ bytes_value (a ∷ b ∷ c ∷ d ∷ []) }
{
    of_three(a, b, c) + u32::from(d) * 0x100_0000
}
