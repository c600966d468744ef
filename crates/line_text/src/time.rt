// How long some frames last: hours, minutes and seconds, to a thousandth.
ghost use Rattle.std.specs.Prelude.{◌≡◌, length};
ghost use Rattle.text.specs.Text.{put_at, place_after};
ghost use Rattle.line_text.specs.Time.{clock_of, seconds_of, time_of};

use crate::put_places;
use text::{put, put_decimal};

// Puts h:mm:ss.ttt for frames at a rate in Hz, or `?` if the rate is 0.
pub fn put_time(out: &mut [u8], at: usize, frames: u64, rate: u32) -> usize
    ensures value { result ≡ place_after (length out.old) at (time_of frames rate) }
    ensures out_after { out.new ≡ put_at out.old at (time_of frames rate) }
{
    if rate == 0 {
        return put(out, at, b"?");
    }
    let second = rate as u64;
    // The remainder is below the rate, so 1000 times it fits a word; 1000 times the frames might not.
    put_clock(out, at, frames / second, frames % second * 1000 / second)
}

fn put_clock(out: &mut [u8], at: usize, seconds: u64, thousandths: u64) -> usize
    ensures value { result ≡ place_after (length out.old) at (clock_of seconds thousandths) }
    ensures out_after { out.new ≡ put_at out.old at (clock_of seconds thousandths) }
{
    let to = put_decimal(out, at, seconds / 3600);
    let to = put(out, to, b":");
    let to = put_places(out, to, seconds / 60 % 60, 2);
    let to = put(out, to, b":");
    put_seconds(out, to, seconds % 60, thousandths)
}

fn put_seconds(out: &mut [u8], at: usize, seconds: u64, thousandths: u64) -> usize
    ensures value { result ≡ place_after (length out.old) at (seconds_of seconds thousandths) }
    ensures out_after { out.new ≡ put_at out.old at (seconds_of seconds thousandths) }
{
    let to = put_places(out, at, seconds, 2);
    let to = put(out, to, b".");
    put_places(out, to, thousandths, 3)
}
