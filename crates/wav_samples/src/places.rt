// The number of two, three or four bytes at a place of the part, all of which are known to lie in it. No length is
// tested, so that a compiler can take several samples of a loop at a time. Each width has a function of its own, which
// a compiler turns into one load.
ghost use Rattle.std.specs.Prelude.{◌≡◌, ◌+◌, ◌≤◌, length};
ghost use Rattle.wav_format.specs.Format.{number};

use little_endian::{of_four, of_three, of_two};

pub(crate) fn two_at(part: &[u8], at: usize) -> u32
    requires { at + 2 ≤ length part.now }
    ensures { result ≡ number 2 part.now at }
{
    of_two(part[at], part[at + 1])
}

pub(crate) fn three_at(part: &[u8], at: usize) -> u32
    requires { at + 3 ≤ length part.now }
    ensures { result ≡ number 3 part.now at }
{
    of_three(part[at], part[at + 1], part[at + 2])
}

pub(crate) fn four_at(part: &[u8], at: usize) -> u32
    requires { at + 4 ≤ length part.now }
    ensures { result ≡ number 4 part.now at }
{
    of_four(part[at], part[at + 1], part[at + 2], part[at + 3])
}

pub(crate) fn number_at<const WIDTH: usize>(part: &[u8], at: usize) -> u32
    requires width { (2 ≤ WIDTH) × (WIDTH ≤ 4) }
    requires within { at + WIDTH ≤ length part.now }
    ensures { result ≡ number WIDTH part.now at }
{
    if WIDTH == 2 {
        two_at(part, at)
    } else if WIDTH == 3 {
        three_at(part, at)
    } else {
        four_at(part, at)
    }
}
