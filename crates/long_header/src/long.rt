// W10. The header of a file past RIFF. It is the header of an empty file with `ds64` before its chunks, and with its
// 32-bit sizes overwritten.
ghost use Rattle.std.specs.Prelude.{◌≡◌, ◌++◌, ◌+◌, ◌≤◌, length, take, drop};
ghost use Rattle.wav_header.specs.Header.{header_of};
ghost use Rattle.long_header.specs.LongHeader.{long_header_length, opening_of, long_header_of};
ghost use Rattle.long_header.specs.Refusals.{Room};
ghost use Rattle.long_header.specs.Parts.{over, sized, Tail};

use crate::Form;
use crate::opening::opening_of;
use sample_kind::{SampleKind, width};
use wav_header::header_length;

// Writes the header into a block of exactly its length.
pub(crate) fn put_long(
    form: Form,
    kind: SampleKind,
    channels: u8,
    rate: u32,
    count: usize,
    out: &mut [u8],
)
    requires { Room kind channels rate count (long_header_length kind) (length out.old) }
    ensures { out.new ≡ long_header_of form kind channels rate count }
{
    let size = count * width(kind);
    let long = 36 + header_length(kind);
    let riff = long + size + size % 2 - 8;
    let frames = count / channels as usize;
    put_rest(kind, channels, rate, &mut out[..]);
    put_front(form, riff, size, frames, &mut out[..]);
    put_sizes(kind, &mut out[..]);
}

// Writes the header of an empty file behind the first 36 bytes. Its first 12 bytes are overwritten by the opening
// later.
fn put_rest(kind: SampleKind, channels: u8, rate: u32, out: &mut [u8])
    requires { Tail kind channels rate (length out.old) }
    ensures { out.new ≡ take 36 out.old ++ header_of kind channels rate 0 }
{
    wav_header::write_header(kind, channels, rate, 0, &mut out[36..]);
}

fn put_front(form: Form, riff: usize, size: usize, frames: usize, out: &mut [u8])
    requires { 48 ≤ length out.old }
    ensures { out.new ≡ opening_of form riff size frames ++ drop 48 out.old }
{
    let first = opening_of(form, riff, size, frames);
    out[0..48].copy_from_slice(&first);
}

// Writes FFFFFFFF for the size of `data` and, if there is one, for the number of frames in `fact`.
fn put_sizes(kind: SampleKind, out: &mut [u8])
    requires { length out.old ≡ long_header_length kind }
    ensures { out.new ≡ sized kind out.old }
{
    if header_length(kind) == 44 {
        put_full(&mut out[..], 76);
        return;
    }
    put_full(&mut out[..], 82);
    put_full(&mut out[..], 90);
}

fn put_full(out: &mut [u8], at: usize)
    requires { at + 4 ≤ length out.old }
    ensures out_after { out.new ≡ over out.old at }
    ensures out_len_unchanged { length out.new ≡ length out.old }
{
    let end = at + 4;
    word_bytes::write_bytes(0xffff_ffff, &mut out[at..end]);
}
