// The lines about files, put into a slice.
ghost use Rattle.std.specs.Prelude.{◌≡◌, length};
ghost use Rattle.text.specs.Text.{put_at, place_after};
ghost use Rattle.file_words.specs.Lines.{wrapped_line, place_text, place_line, differ_text, differ_line};
ghost use Rattle.file_words.specs.Unopened.{refused_line};

use error_lines::{put_name, put_start};
use sample_kind::SampleKind;
use text::{put, put_decimal};
use wave_file::Refused;

pub(crate) fn put_refused(
    out: &mut [u8],
    at: usize,
    command: &[u8],
    name: &[u8],
    refused: Refused,
) -> usize
    ensures value { result ≡ place_after (length out.old) at
        (refused_line command.now name.now refused) }
    ensures out_after { out.new ≡ put_at out.old at
        (refused_line command.now name.now refused) }
{
    let one = put_start(out, at, command, name);
    refusal_words::put_refusal(
        out,
        one,
        name,
        refused.number,
        refused.tag,
        refused.channels,
        refused.block,
        refused.bits,
    )
}

pub(crate) fn put_wrapped(
    out: &mut [u8],
    at: usize,
    command: &[u8],
    name: &[u8],
    kind: SampleKind,
) -> usize
    ensures value { result ≡ place_after (length out.old) at
        (wrapped_line command.now name.now kind) }
    ensures out_after { out.new ≡ put_at out.old at
        (wrapped_line command.now name.now kind) }
{
    let one = put_start(out, at, command, name);
    let two = put(
        out,
        one,
        b" is wrapped (WAVE_FORMAT_EXTENSIBLE) and read as ",
    );
    let three = report_lines::put_kind(out, two, kind);
    put(out, three, b"\n")
}

fn put_place_words(
    out: &mut [u8],
    at: usize,
    number: u8,
    frame: usize,
    channel: u8,
    words: &[u8],
) -> usize
    ensures value { result ≡ place_after (length out.old) at
        (place_text number frame channel words.now) }
    ensures out_after { out.new ≡ put_at out.old at
        (place_text number frame channel words.now) }
{
    let one = put(out, at, b" is refused by ");
    let two = put_decimal(out, one, number as u64);
    let three = put(out, two, b": frame ");
    let four = put_decimal(out, three, frame as u64);
    let five = put(out, four, b" of channel ");
    let six = put_decimal(out, five, channel as u64);
    put(out, six, words)
}

pub(crate) fn put_place(
    out: &mut [u8],
    at: usize,
    command: &[u8],
    name: &[u8],
    number: u8,
    frame: usize,
    channel: u8,
    words: &[u8],
) -> usize
    ensures value { result ≡ place_after (length out.old) at
        (place_line command.now name.now number frame channel words.now) }
    ensures out_after { out.new ≡ put_at out.old at
        (place_line command.now name.now number frame channel words.now) }
{
    let one = put_start(out, at, command, name);
    put_place_words(out, one, number, frame, channel, words)
}

fn put_differ_words(out: &mut [u8], at: usize, second: &[u8], a: u32, b: u32, words: &[u8]) -> usize
    ensures value { result ≡ place_after (length out.old) at
        (differ_text second.now a b words.now) }
    ensures out_after { out.new ≡ put_at out.old at
        (differ_text second.now a b words.now) }
{
    let one = put(out, at, b" has ");
    let two = put_decimal(out, one, a as u64);
    let three = put(out, two, b" and ");
    let four = put_name(out, three, second);
    let five = put(out, four, b" has ");
    let six = put_decimal(out, five, b as u64);
    put(out, six, words)
}

pub(crate) fn put_differ(
    out: &mut [u8],
    at: usize,
    command: &[u8],
    first: &[u8],
    second: &[u8],
    a: u32,
    b: u32,
    words: &[u8],
) -> usize
    ensures value { result ≡ place_after (length out.old) at
        (differ_line command.now first.now second.now a b words.now) }
    ensures out_after { out.new ≡ put_at out.old at
        (differ_line command.now first.now second.now a b words.now) }
{
    let one = put_start(out, at, command, first);
    put_differ_words(out, one, second, a, b, words)
}
