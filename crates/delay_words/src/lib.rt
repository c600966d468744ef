// Which whole delays would be accepted for settings that wander this far, in words: a line without its beginning.
#![tactic(auto)]

ghost use Rattle.std.specs.Prelude.{◌≡◌, ◌<◌, length};
ghost use Rattle.text.specs.Text.{put_at, place_after};
ghost use Rattle.delay_words.specs.Delays.{whole_above, range_text, delays_text};

use text::{put, put_decimal};

// The least whole number that is not below x, up to 65536.
pub fn whole_above(x: f64) -> u64
    ensures { result ≡ whole_above x }
{
    for n in 0..65536u64 {
        if x <= n as f64 {
            return n;
        }
    }
    65536
}

fn put_range(out: &mut [u8], at: usize, above: u64) -> usize
    requires { above < 32749 }
    ensures value { result ≡ place_after (length out.old) at (range_text above) }
    ensures out_after { out.new ≡ put_at out.old at (range_text above) }
{
    let one = put(out, at, b"with these settings delay= can be from ");
    let two = put_decimal(out, one, above + 16);
    let three = put(out, two, b" to ");
    let four = put_decimal(out, three, 65512 - above);
    put(out, four, b" samples\n")
}

// Puts which delays would be accepted if the wandering reaches up to `above` samples from its middle.
pub fn put_delays(out: &mut [u8], at: usize, above: u64) -> usize
    ensures value { result ≡ place_after (length out.old) at (delays_text above) }
    ensures out_after { out.new ≡ put_at out.old at (delays_text above) }
{
    if above < 32749 {
        return put_range(out, at, above);
    }
    put(
        out,
        at,
        b"no delay= will do: these settings wander past the ring: choose a higher rate or a smaller depth\n",
    )
}
