// The number of two or three bytes at a place of the part, high byte first, all of which are known to lie in it. No
// length is tested, so that a compiler can take several samples of a loop at a time.
ghost use Rattle.std.specs.Prelude.{◌≡◌, [], ◌∷◌, ◌+◌, ◌*◌, ◌/◌, ◌%◌, ◌≤◌, ◌<◌, length, get_or};
ghost use Rattle.word_bytes.specs.Bytes.{bytes_value};
ghost use Rattle.high_first.specs.High.{big_number};

use little_endian::{of_four, of_three, of_two};

pub(crate) fn two_at(part: &[u8], at: usize) -> u32
    requires { at + 2 ≤ length part.now }
    ensures { result ≡ big_number 2 part.now at }
{
    exchanged(low_two_at(part, at))
}

pub(crate) fn three_at(part: &[u8], at: usize) -> u32
    requires { at + 3 ≤ length part.now }
    ensures { result ≡ big_number 3 part.now at }
{
    of_three(part[at + 2], part[at + 1], part[at])
}

// Three bytes where a fourth follows them, so that one load reads all four.
pub(crate) fn three_of_four_at(part: &[u8], at: usize) -> u32
    requires { at + 4 ≤ length part.now }
    ensures { result ≡ big_number 3 part.now at }
{
    first_three(low_four_at(part, at))
}

// Bytes read low byte first, because a compiler makes one load of these and not of the other order. It does so only in
// a function of its own, before the caller reorders the bytes.
fn low_two_at(part: &[u8], at: usize) -> u32
    requires { at + 2 ≤ length part.now }
    ensures value { result ≡ bytes_value (get_or part.now at 0 ∷ get_or part.now (at + 1) 0 ∷ []) }
    ensures upper_bound { result < 0x1_0000 }
{
    of_two(part[at], part[at + 1])
}

fn low_four_at(part: &[u8], at: usize) -> u32
    requires { at + 4 ≤ length part.now }
    ensures { result ≡ bytes_value
        (get_or part.now at 0 ∷ get_or part.now (at + 1) 0
        ∷ get_or part.now (at + 2) 0 ∷ get_or part.now (at + 3) 0 ∷ []) }
{
    of_four(part[at], part[at + 1], part[at + 2], part[at + 3])
}

// `exchanged` swaps the two bytes of a number, and `first_three` reverses the first three of four. A compiler
// recognises both as byte swaps.
fn exchanged(n: u32) -> u32
    requires { n < 0x1_0000 }
    ensures { result ≡ n % 256 * 256 + n / 256 }
{
    n % 256 * 256 + n / 256
}

fn first_three(n: u32) -> u32
    ensures { result ≡ (n % 256 * 256 + n / 256 % 256) * 256 + n / 0x1_0000 % 256 }
{
    (n % 256 * 256 + n / 256 % 256) * 256 + n / 0x1_0000 % 256
}
