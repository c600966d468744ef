// W2. The header written field by field, each at its place. The names of chunks are written as numbers, low byte first
// like all others.
ghost use Rattle.std.specs.Prelude.{◌≡◌, ◌++◌, ◌+◌, ◌^◌, ◌≤◌, ◌<◌, length, take};
ghost use Rattle.word_bytes.specs.Bytes.{low_bytes};
ghost use Rattle.wav_header.specs.Header.{header_length, tag_of, size_of, file_length, header_of};
ghost use Rattle.wav_header.specs.Fields.{Room, format_size, start_for};
ghost use Rattle.wav_header.specs.Fields.{riff_for, format_start, format_end, fact_for, data_for};

use crate::header_length;
use sample_kind::{SampleKind, frame_width, width};

// The length of a file. A file that fits RIFF has fewer than 2^32 samples, so the sum cannot overflow.
pub(crate) fn length_of(kind: SampleKind, count: usize) -> usize
    requires { count < 2 ^ 32 }
    ensures { result ≡ file_length kind count }
{
    let size = count * width(kind);
    header_length(kind) + size + size % 2
}

// Writes the header into a block of exactly its length.
pub(crate) fn put_header(kind: SampleKind, channels: u8, rate: u32, count: usize, out: &mut [u8])
    requires { Room kind channels count (length out.old) }
    ensures { out.new ≡ header_of kind channels rate count }
{
    let length = length_of(kind, count);
    let size = count * width(kind);
    put_start(kind, channels, rate, length - 8, &mut out[..]);
    if header_length(kind) == 44 {
        put_data(size, &mut out[..], 36);
        return;
    }
    put_fact(count / channels as usize, &mut out[..]);
    put_data(size, &mut out[..], 50);
}

// Writes the first 36 bytes, which are laid out alike for all kinds.
fn put_start(kind: SampleKind, channels: u8, rate: u32, riff: usize, out: &mut [u8])
    requires { 36 ≤ length out.old }
    ensures out_len_unchanged { length out.new ≡ length out.old }
    ensures out_after { take 36 out.new ≡ start_for kind channels rate riff }
{
    put_riff(riff, &mut out[..]);
    put_format(kind, channels, rate, &mut out[..]);
    put_block(kind, channels, rate, &mut out[..]);
}

// Writes the first 12 bytes: `RIFF`, the number of bytes from place 8 on, and `WAVE`.
fn put_riff(size: usize, out: &mut [u8])
    requires { 12 ≤ length out.old }
    ensures out_len_unchanged { length out.new ≡ length out.old }
    ensures out_after { take 12 out.new ≡ riff_for size }
{
    put(0x4646_4952, &mut out[..], 0, 4); // RIFF
    put(size, &mut out[..], 4, 4);
    put(0x4556_4157, &mut out[..], 8, 4); // WAVE
}

// Writes the next 16 bytes: `fmt `, its size, the tag, the channels and the rate.
fn put_format(kind: SampleKind, channels: u8, rate: u32, out: &mut [u8])
    requires { 28 ≤ length out.old }
    ensures out_len_unchanged { length out.new ≡ length out.old }
    ensures out_after { take 28 out.new ≡ take 12 out.old ++ format_start kind channels rate }
{
    put(0x2074_6d66, &mut out[..], 12, 4); // fmt
    put(format_size(kind), &mut out[..], 16, 4);
    put(tag(kind), &mut out[..], 20, 2);
    put(channels as usize, &mut out[..], 22, 2);
    put(rate as usize, &mut out[..], 24, 4);
}

// Writes the next 8 bytes: bytes per second, bytes per frame and bits per sample.
fn put_block(kind: SampleKind, channels: u8, rate: u32, out: &mut [u8])
    requires { 36 ≤ length out.old }
    ensures out_len_unchanged { length out.new ≡ length out.old }
    ensures out_after { take 36 out.new ≡ take 28 out.old ++ format_end kind channels rate }
{
    let frame = frame_width(kind, channels);
    put(rate as usize * frame, &mut out[..], 28, 4);
    put(frame, &mut out[..], 32, 2);
    put(8 * width(kind), &mut out[..], 34, 2);
}

// Writes what only a float header has: an extension size of 0, and a `fact` chunk with the number of frames.
fn put_fact(frames: usize, out: &mut [u8])
    requires { 50 ≤ length out.old }
    ensures out_len_unchanged { length out.new ≡ length out.old }
    ensures out_after { take 50 out.new ≡ take 36 out.old ++ fact_for frames }
{
    put(0, &mut out[..], 36, 2);
    put(0x7463_6166, &mut out[..], 38, 4); // fact
    put(4, &mut out[..], 42, 4);
    put(frames, &mut out[..], 46, 4);
}

// Writes the last 8 bytes, from place `at` on: `data` and the number of bytes that follow.
fn put_data(size: usize, out: &mut [u8], at: usize)
    requires { length out.old ≡ at + 8 }
    ensures { out.new ≡ take at out.old ++ data_for size }
{
    put(0x6174_6164, &mut out[..], at, 4); // data
    put(size, &mut out[..], at + 4, 4);
}

fn format_size(kind: SampleKind) -> usize
    ensures { result ≡ format_size kind }
{
    match kind {
        SampleKind::Pcm16 => 16,
        SampleKind::Pcm24 => 16,
        SampleKind::Float32 => 18,
    }
}

fn tag(kind: SampleKind) -> usize
    ensures { result ≡ tag_of kind }
{
    match kind {
        SampleKind::Pcm16 => 1,
        SampleKind::Pcm24 => 1,
        SampleKind::Float32 => 3,
    }
}

// Writes one field: the low `size` bytes of n, from place `at` on.
fn put(n: usize, out: &mut [u8], at: usize, size: usize)
    requires { at + size ≤ length out.old }
    ensures out_len_unchanged { length out.new ≡ length out.old }
    ensures out_after { take (at + size) out.new ≡ take at out.old ++ low_bytes size n }
{
    let end = at + size;
    word_bytes::write_bytes(n as u64, &mut out[at..end]);
}
