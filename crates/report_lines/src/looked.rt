// What `look` writes behind the name of a file.
ghost use Rattle.std.specs.Prelude.{◌≡◌, length};
ghost use Rattle.text.specs.Text.{put_at, place_after};
ghost use Rattle.report_lines.specs.Looked.{time_text, wrapped_text, looked_text};

use crate::files::put_file;
use crate::times::put_length;
use sample_kind::SampleKind;

// The length in time with a comma in front; nothing at a rate of 0.
fn put_time(out: &mut [u8], at: usize, frames: u64, rate: u32) -> usize
    ensures value { result ≡ place_after (length out.old) at (time_text frames rate) }
    ensures out_after { out.new ≡ put_at out.old at (time_text frames rate) }
{
    if rate == 0 {
        return text::put(out, at, b"");
    }
    let to = text::put(out, at, b", ");
    put_length(out, to, frames, rate)
}

// Whether the header has the longer form, and the end of the line.
fn put_wrapped(out: &mut [u8], at: usize, wrapped: bool) -> usize
    ensures value { result ≡ place_after (length out.old) at (wrapped_text wrapped) }
    ensures out_after { out.new ≡ put_at out.old at (wrapped_text wrapped) }
{
    if wrapped {
        return text::put(out, at, b", wrapped\n");
    }
    text::put(out, at, b"\n")
}

pub fn put_looked(
    out: &mut [u8],
    at: usize,
    kind: SampleKind,
    channels: u8,
    rate: u32,
    frames: u64,
    wrapped: bool,
) -> usize
    ensures value { result ≡ place_after (length out.old) at (looked_text kind channels rate frames wrapped) }
    ensures out_after { out.new ≡ put_at out.old at (looked_text kind channels rate frames wrapped) }
{
    let first = put_file(out, at, kind, channels, rate, frames);
    let end = put_time(out, first, frames, rate);
    put_wrapped(out, end, wrapped)
}
