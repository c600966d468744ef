// A kind of samples and a file in words.
ghost use Rattle.std.specs.Prelude.{◌≡◌, length};
ghost use Rattle.text.specs.Text.{put_at, place_after};
ghost use Rattle.report_lines.specs.Files.{kind_text, plural_text, count_text, file_text};

use sample_kind::SampleKind;

// The words are `PCM of 16 bits`, `PCM of 24 bits` and `float of 32 bits`.
pub fn put_kind(out: &mut [u8], at: usize, kind: SampleKind) -> usize
    ensures value { result ≡ place_after (length out.old) at (kind_text kind) }
    ensures out_after { out.new ≡ put_at out.old at (kind_text kind) }
{
    match kind {
        SampleKind::Pcm16 => text::put(out, at, b"PCM of 16 bits"),
        SampleKind::Pcm24 => text::put(out, at, b"PCM of 24 bits"),
        SampleKind::Float32 => text::put(out, at, b"float of 32 bits"),
    }
}

// The plural ends in an s unless there is exactly one.
fn put_plural(out: &mut [u8], at: usize, n: u64) -> usize
    ensures value { result ≡ place_after (length out.old) at (plural_text n) }
    ensures out_after { out.new ≡ put_at out.old at (plural_text n) }
{
    if n == 1 {
        return text::put(out, at, b"");
    }
    text::put(out, at, b"s")
}

// A number of things: `1 frame`, `2 frames`.
pub fn put_count(out: &mut [u8], at: usize, n: u64, thing: &[u8]) -> usize
    ensures value { result ≡ place_after (length out.old) at (count_text n thing.now) }
    ensures out_after { out.new ≡ put_at out.old at (count_text n thing.now) }
{
    let blank = text::put_decimal(out, at, n);
    let word = text::put(out, blank, b" ");
    let end = text::put(out, word, thing);
    put_plural(out, end, n)
}

// The form is `PCM of 24 bits, 1 channel, 48000 Hz, 480000 frames`.
pub fn put_file(
    out: &mut [u8],
    at: usize,
    kind: SampleKind,
    channels: u8,
    rate: u32,
    frames: u64,
) -> usize
    ensures value { result ≡ place_after (length out.old) at (file_text kind channels rate frames) }
    ensures out_after { out.new ≡ put_at out.old at (file_text kind channels rate frames) }
{
    let first = put_kind(out, at, kind);
    let many = text::put(out, first, b", ");
    let second = put_count(out, many, channels as u64, b"channel");
    let speed = text::put(out, second, b", ");
    let third = text::put_decimal(out, speed, rate as u64);
    let last = text::put(out, third, b" Hz, ");
    put_count(out, last, frames, b"frame")
}
