// Parts of the programs' lines: blanks, columns, digits with zeros in front, tenths, and a length in time.
// Words and numbers are put by `text` and `decimals`. A text that does not fit is cut off where the slice ends.
#![tactic(auto)]

ghost use Rattle.std.specs.Prelude.{◌≡◌, length};
ghost use Rattle.text.specs.Text.{put_at, place_after};
ghost use Rattle.line_text.specs.Columns.{blanks, right_of, places_in, tenths_of};

mod time;

use text::{put, put_decimal};
pub use time::put_time;

pub fn put_blanks(out: &mut [u8], at: usize, count: usize) -> usize
    ensures value { result ≡ place_after (length out.old) at (blanks count) }
    ensures out_after { out.new ≡ put_at out.old at (blanks count) }
{
    if out.len() <= at {
        return out.len();
    }
    let n = count.min(out.len() - at);
    out[at..at + n].fill(b' ');
    at + n
}

// Puts a number at the right of a column of that width: blanks, then its digits.
pub fn put_right(out: &mut [u8], at: usize, n: u64, width: usize) -> usize
    ensures value { result ≡ place_after (length out.old) at (right_of n width) }
    ensures out_after { out.new ≡ put_at out.old at (right_of n width) }
{
    let mut digits = [0u8; 20];
    let places = put_decimal(&mut digits, 0, n);
    let to = put_blanks(out, at, width.saturating_sub(places));
    put_decimal(out, to, n)
}

// Puts the last digits of a number, at most 20, with zeros in front.
pub fn put_places(out: &mut [u8], at: usize, n: u64, places: usize) -> usize
    ensures value { result ≡ place_after (length out.old) at (places_in places n) }
    ensures out_after { out.new ≡ put_at out.old at (places_in places n) }
{
    let mut digits = [48u8; 20];
    let from = 20usize.saturating_sub(places);
    let mut v = n;
    for k in (from..20).rev() {
        digits[k] = 48 + (v % 10) as u8;
        v /= 10;
    }
    put(out, at, &digits[from..])
}

// Puts a number of tenths as the whole part, a point and one digit.
pub fn put_tenths(out: &mut [u8], at: usize, n: u64) -> usize
    ensures value { result ≡ place_after (length out.old) at (tenths_of n) }
    ensures out_after { out.new ≡ put_at out.old at (tenths_of n) }
{
    let point = put_decimal(out, at, n / 10);
    let to = put(out, point, b".");
    put_places(out, to, n, 1)
}
