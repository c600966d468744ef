// What `imitate` says of the samples that read absent taps (W7): a line for the file, or for each channel if the
// channels were read at different positions.
#![tactic(auto)]

ghost use Rattle.std.specs.Prelude.{◌≡◌, length};
ghost use Rattle.text.specs.Text.{put_at, place_after};
ghost use Rattle.absent_words.specs.Words.{kinds_text, absent_text, line_text, same_of, pair_text, lines_text};

use absent_report::AbsentReport;
use refusal_order::both;
use report_lines::put_count;
use text::{put, put_decimal};

fn put_kinds(out: &mut [u8], at: usize, report: AbsentReport) -> usize
    ensures value { result ≡ place_after (length out.old) at (kinds_text report) }
    ensures out_after { out.new ≡ put_at out.old at (kinds_text report) }
{
    let one = put_decimal(out, at, report.unwritten);
    let two = put(out, one, b" before the start, ");
    let three = put_decimal(out, two, report.ahead);
    let four = put(out, three, b" ahead of the newest, ");
    let five = put_decimal(out, four, report.overwritten);
    put(out, five, b" overwritten\n")
}

fn put_absent(out: &mut [u8], at: usize, report: AbsentReport) -> usize
    ensures value { result ≡ place_after (length out.old) at (absent_text report) }
    ensures out_after { out.new ≡ put_at out.old at (absent_text report) }
{
    if report.samples == 0 {
        return put(out, at, b"no sample read an absent tap\n");
    }
    let one = put_count(out, at, report.samples, b"sample");
    let two = put(out, one, b" read absent taps, last at frame ");
    let three = put_decimal(out, two, report.last);
    let four = put(out, three, b": ");
    put_kinds(out, four, report)
}

fn put_line(out: &mut [u8], at: usize, whose: &[u8], report: AbsentReport) -> usize
    ensures value { result ≡ place_after (length out.old) at (line_text whose.now report) }
    ensures out_after { out.new ≡ put_at out.old at (line_text whose.now report) }
{
    let one = put(out, at, b"imitate: ");
    let two = put(out, one, whose);
    put_absent(out, two, report)
}

// Whether two channels have the same numbers.
fn same(one: AbsentReport, two: AbsentReport) -> bool
    ensures { result ≡ same_of one two }
{
    let kinds = both(
        both(one.unwritten == two.unwritten, one.ahead == two.ahead),
        one.overwritten == two.overwritten,
    );
    both(
        both(one.samples == two.samples, kinds),
        one.last == two.last,
    )
}

fn put_pair(out: &mut [u8], at: usize, one: AbsentReport, two: AbsentReport) -> usize
    ensures value { result ≡ place_after (length out.old) at (pair_text one two) }
    ensures out_after { out.new ≡ put_at out.old at (pair_text one two) }
{
    if same(one, two) {
        return put_line(out, at, b"each channel: ", one);
    }
    let next = put_line(out, at, b"channel 1: ", one);
    put_line(out, next, b"channel 2: ", two)
}

// Puts what a file of one or two channels lacked; `two` counts only if there are two.
pub fn put_lines(
    out: &mut [u8],
    at: usize,
    channels: u8,
    one: AbsentReport,
    two: AbsentReport,
) -> usize
    ensures value { result ≡ place_after (length out.old) at (lines_text channels one two) }
    ensures out_after { out.new ≡ put_at out.old at (lines_text channels one two) }
{
    if channels == 2 {
        return put_pair(out, at, one, two);
    }
    put_line(out, at, b"", one)
}
