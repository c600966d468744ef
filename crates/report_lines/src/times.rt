// A length in time.
ghost use Rattle.std.specs.Prelude.{◌≡◌, length};
ghost use Rattle.text.specs.Text.{put_at, place_after};
ghost use Rattle.report_lines.specs.Times.{two_text, three_text, clock_text, length_text};

// Puts at least two digits.
fn put_two(out: &mut [u8], at: usize, n: u64) -> usize
    ensures value { result ≡ place_after (length out.old) at (two_text n) }
    ensures out_after { out.new ≡ put_at out.old at (two_text n) }
{
    if n < 10 {
        let to = text::put(out, at, b"0");
        return text::put_decimal(out, to, n);
    }
    text::put_decimal(out, at, n)
}

// Puts at least three digits.
fn put_three(out: &mut [u8], at: usize, n: u64) -> usize
    ensures value { result ≡ place_after (length out.old) at (three_text n) }
    ensures out_after { out.new ≡ put_at out.old at (three_text n) }
{
    if n < 100 {
        let to = text::put(out, at, b"0");
        return put_two(out, to, n);
    }
    put_two(out, at, n)
}

// The form is `0:00:25.720` for 25 seconds and 720 thousandths.
fn put_clock(out: &mut [u8], at: usize, seconds: u64, thousandths: u64) -> usize
    ensures value { result ≡ place_after (length out.old) at (clock_text seconds thousandths) }
    ensures out_after { out.new ≡ put_at out.old at (clock_text seconds thousandths) }
{
    let first = text::put_decimal(out, at, seconds / 3600);
    let minutes = text::put(out, first, b":");
    let second = put_two(out, minutes, seconds / 60 % 60);
    let rest = text::put(out, second, b":");
    let third = put_two(out, rest, seconds % 60);
    let last = text::put(out, third, b".");
    put_three(out, last, thousandths)
}

// How long some frames last, rounded down to a thousandth of a second. Nothing is put at a rate of 0. The remainder of
// a division by the rate is below 2^32, so 1000 times it fits a word.
pub fn put_length(out: &mut [u8], at: usize, frames: u64, rate: u32) -> usize
    ensures value { result ≡ place_after (length out.old) at (length_text frames rate) }
    ensures out_after { out.new ≡ put_at out.old at (length_text frames rate) }
{
    let speed = rate as u64;
    if speed == 0 {
        return text::put(out, at, b"");
    }
    put_clock(out, at, frames / speed, frames % speed * 1000 / speed)
}
