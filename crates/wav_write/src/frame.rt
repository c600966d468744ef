// W2, W10e. The bytes around the samples of a file: the header, and a pad byte if the samples have an odd number of
// bytes.
ghost use Rattle.std.specs.Prelude.{◌≡◌, length};
ghost use Rattle.long_header.specs.LongHeader.{file_length_for};
ghost use Rattle.wav_write.specs.Placing.{early_verdict, Room, Held, headed, padded};

use long_header::{Form, file_length_for, header_length_for, header_of};
use sample_kind::{SampleKind, width};

// The refusal that is known before any sample is read: 1, 19, 13, 14, or 0 for none.
pub(crate) fn early(kind: SampleKind, channels: u8, rate: u32, count: usize, room: usize) -> u8
    ensures { result ≡ early_verdict kind channels rate count room }
{
    let refused = long_header::refusal_for(kind, channels, rate, count);
    if refused != 0 {
        return refused;
    }
    if file_length_for(kind, channels, count) <= room {
        0
    } else {
        14
    }
}

// Writes the header and the pad byte around samples that are already in place, and returns the length of the file.
pub(crate) fn finish(
    form: Form,
    kind: SampleKind,
    channels: u8,
    rate: u32,
    count: usize,
    out: &mut [u8],
) -> usize
    requires { Room kind channels rate count (length out.old) }
    ensures value { result ≡ file_length_for kind count }
    ensures out_after { out.new ≡ padded kind count (headed form kind channels rate count out.old) }
{
    let length = file_length_for(kind, channels, count);
    put_head(form, kind, channels, rate, count, &mut out[..]);
    put_pad(kind, count, length, &mut out[..]);
    length
}

fn put_head(form: Form, kind: SampleKind, channels: u8, rate: u32, count: usize, out: &mut [u8])
    requires { Room kind channels rate count (length out.old) }
    ensures { out.new ≡ headed form kind channels rate count out.old }
{
    let start = header_length_for(kind, count);
    header_of(form, kind, channels, rate, count, &mut out[0..start]);
}

fn put_pad(kind: SampleKind, count: usize, length: usize, out: &mut [u8])
    requires { Held (file_length_for kind count) length out.old }
    ensures { out.new ≡ padded kind count out.old }
{
    let end = header_length_for(kind, count) + count * width(kind);
    if end < length {
        out[end] = 0;
    }
}
