// What the value of a setting must be, in words, for a program that refuses one.
#![tactic(auto)]

ghost use Rattle.std.specs.Prelude.{◌≡◌, length};
ghost use Rattle.text.specs.Text.{put_at, place_after};
ghost use Rattle.wanted.specs.Wanted.{wanted_of};

use arguments::Name;
use text::put;

pub fn put_wanted(out: &mut [u8], at: usize, name: Name) -> usize
    ensures value { result ≡ place_after (length out.old) at (wanted_of name) }
    ensures out_after { out.new ≡ put_at out.old at (wanted_of name) }
{
    match name {
        Name::Seed => put(
            out,
            at,
            b"a seed is a whole number from 0 to 18446744073709551615",
        ),
        Name::Delay => put(
            out,
            at,
            b"a delay is a number of samples, as 512 or 12.5, of at most 15 digits",
        ),
        Name::Kind => put(out, at, b"a kind is same, pcm16, pcm24 or float32"),
        Name::Setting(_) => put(
            out,
            at,
            b"a setting is a number, as 12 or -0.5, of at most 15 digits",
        ),
        Name::FirstSkip => put(out, at, b"first-skip is a whole number of frames"),
        Name::SecondSkip => put(out, at, b"second-skip is a whole number of frames"),
        Name::Frames => put(out, at, b"frames is a whole number, or all"),
        Name::Channel => put(out, at, b"a channel is 1, 2 or all"),
        Name::Picture => put(out, at, b"a picture is a file's name"),
        Name::Unknown => put(out, at, b"there is no such setting"),
    }
}
