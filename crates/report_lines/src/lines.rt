// The lines of a residual's report.
ghost use Rattle.std.specs.Prelude.{◌≡◌, length};
ghost use Rattle.text.specs.Text.{put_at, place_after};
ghost use Rattle.report_lines.specs.Lines.{place_text, largest_text, sum_text, figures_text, channel_text};
ghost use Rattle.report_lines.specs.Lines.{compared_text, left_over_text};

use crate::files::put_count;
use residual::Report;

fn put_place(out: &mut [u8], at: usize, place: Option<u64>) -> usize
    ensures value { result ≡ place_after (length out.old) at (place_text place) }
    ensures out_after { out.new ≡ put_at out.old at (place_text place) }
{
    match place {
        None => text::put(out, at, b"none"),
        Some(k) => text::put_decimal(out, at, k),
    }
}

// The sum of squares as one number, and as the two halves that a report carries.
fn put_sum(out: &mut [u8], at: usize, high: u64, low: u64) -> usize
    ensures value { result ≡ place_after (length out.old) at (sum_text high low) }
    ensures out_after { out.new ≡ put_at out.old at (sum_text high low) }
{
    let first = decimals::put_u128(out, at, high, low);
    let upper = text::put(out, first, b", high ");
    let second = text::put_decimal(out, upper, high);
    let lower = text::put(out, second, b", low ");
    text::put_decimal(out, lower, low)
}

fn put_largest(out: &mut [u8], at: usize, largest: u32, place: Option<u64>) -> usize
    ensures value { result ≡ place_after (length out.old) at (largest_text largest place) }
    ensures out_after { out.new ≡ put_at out.old at (largest_text largest place) }
{
    let first = text::put(out, at, b", largest ");
    let to = text::put_decimal(out, first, largest as u64);
    let second = text::put(out, to, b", place ");
    put_place(out, second, place)
}

// What follows the number of samples; nothing if nothing was compared.
fn put_figures(out: &mut [u8], at: usize, report: Report, level: Option<u32>) -> usize
    ensures value { result ≡ place_after (length out.old) at (figures_text report level) }
    ensures out_after { out.new ≡ put_at out.old at (figures_text report level) }
{
    let place = report.place;
    if report.number == 0 {
        return text::put(out, at, b"");
    }
    let first = put_largest(out, at, report.largest, place);
    let to = text::put(out, first, b", sum ");
    let second = put_sum(out, to, report.high, report.low);
    let last = text::put(out, second, b", level ");
    level_text::put_level(out, last, level)
}

// The line of a channel. If nothing was compared it ends with the number of samples.
pub fn put_channel(
    out: &mut [u8],
    at: usize,
    channel: u8,
    report: Report,
    level: Option<u32>,
) -> usize
    ensures value { result ≡ place_after (length out.old) at (channel_text channel report level) }
    ensures out_after { out.new ≡ put_at out.old at (channel_text channel report level) }
{
    let first = text::put(out, at, b"channel ");
    let name = text::put_decimal(out, first, channel as u64);
    let second = text::put(out, name, b": number ");
    let number = text::put_decimal(out, second, report.number);
    let end = put_figures(out, number, report, level);
    text::put(out, end, b"\n")
}

// The first frame of each file that is compared.
pub fn put_compared(out: &mut [u8], at: usize, first: u64, second: u64) -> usize
    ensures value { result ≡ place_after (length out.old) at (compared_text first second) }
    ensures out_after { out.new ≡ put_at out.old at (compared_text first second) }
{
    let one = text::put(out, at, b"compared: first from frame ");
    let to = text::put_decimal(out, one, first);
    let two = text::put(out, to, b", second from frame ");
    let end = text::put_decimal(out, two, second);
    text::put(out, end, b"\n")
}

// How many frames of each file stand behind the last one compared.
pub fn put_left_over(out: &mut [u8], at: usize, first: u64, second: u64) -> usize
    ensures value { result ≡ place_after (length out.old) at (left_over_text first second) }
    ensures out_after { out.new ≡ put_at out.old at (left_over_text first second) }
{
    let one = text::put(out, at, b"left over: first ");
    let to = put_count(out, one, first, b"frame");
    let two = text::put(out, to, b", second ");
    let end = put_count(out, two, second, b"frame");
    text::put(out, end, b"\n")
}
