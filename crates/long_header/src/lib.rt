// W10. The bytes of a WAV file before its samples, for up to 2^40 bytes of samples: RIFF if the file fits it, otherwise
// RF64 or BW64, as the caller chooses.
#![tactic(auto)]

mod long; // the header past RIFF
mod opening; // its first 48 bytes
mod tests; // the tests of each refusal

ghost use Rattle.std.specs.Prelude.{◌≡◌, length};
ghost use Rattle.long_header.specs.LongHeader.{header_length_for, header_for};
ghost use Rattle.long_header.specs.Refusals.{file_verdict_for, header_verdict_for, header_after, length_for64, Room};

use long::put_long;
use refusal_order::both;
use sample_kind::{SampleKind, width};
use tests::{file_refusal, header_refusal, size_ok};
use wav_header::{fits_riff, header_length};
use wav_settings::{one_or_two, whole_frames};

// The identifier of a file that is too long for RIFF.
#[derive(Clone, Copy)]
pub enum Form {
    Rf64,
    Bw64,
}

// The length of the header of a file of `count` samples, which is 36 bytes longer past RIFF.
pub fn header_length_for(kind: SampleKind, count: usize) -> usize
    ensures { result ≡ header_length_for kind count }
{
    if fits_riff(kind, count) {
        return header_length(kind);
    }
    36 + header_length(kind)
}

// The refusal that does not depend on a buffer: 1, 19, 13, or 0 for none.
pub fn refusal_for(kind: SampleKind, channels: u8, rate: u32, count: usize) -> u8
    ensures { result ≡ file_verdict_for kind channels rate count }
{
    file_refusal(kind, channels, rate, count)
}

// The length of a file of `count` samples over all channels, or 0 if 1, 19 or 13 refuses it at every rate.
pub fn file_length_for(kind: SampleKind, channels: u8, count: usize) -> usize
    ensures { result ≡ length_for64 kind channels count }
{
    if both(
        whole_frames(channels, count),
        both(size_ok(kind, count), one_or_two(channels)),
    ) {
        let size = count * width(kind);
        header_length_for(kind, count) + size + size % 2
    } else {
        0
    }
}

// Refuses by 1, 19, 13 or 14, or writes the header. The bytes behind it stay as they were.
pub fn header_of(
    form: Form,
    kind: SampleKind,
    channels: u8,
    rate: u32,
    count: usize,
    out: &mut [u8],
) -> u8
    ensures value { result ≡ header_verdict_for kind channels rate count (length out.old) }
    ensures out_after { out.new ≡ header_after form kind channels rate count out.old }
{
    let refused = header_refusal(kind, channels, rate, count, out.len());
    if refused != 0 {
        return refused;
    }
    let end = header_length_for(kind, count);
    put(form, kind, channels, rate, count, &mut out[0..end]);
    0
}

// Writes the header into a block of exactly its length.
fn put(form: Form, kind: SampleKind, channels: u8, rate: u32, count: usize, out: &mut [u8])
    requires { Room kind channels rate count (header_length_for kind count) (length out.old) }
    ensures { out.new ≡ header_for form kind channels rate count }
{
    if fits_riff(kind, count) {
        wav_header::write_header(kind, channels, rate, count, &mut out[..]);
        return;
    }
    put_long(form, kind, channels, rate, count, &mut out[..]);
}
