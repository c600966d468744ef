// W2, W10. The header and the samples of a file apart, for callers that write a file piece by piece. Each function that
// writes returns the refusal number, 0 for none.
ghost use Rattle.std.specs.Prelude.{◌≡◌};
ghost use Rattle.fugnadri_wav_write.specs.Exports.{holds, header_left, header_length_of, block_left};

use crate::codes::{form_of, known, rate_for};
use sample_kind::of_code;
use wav_header::refusal_unlisted;

// The length of the header before `count` samples: 44 for PCM, 58 for float, 36 more past RIFF, or 0 for an unknown
// kind.
#[unsafe(no_mangle)]
pub extern "C" fn fugnadri_wav_header_length(kind: u8, count: usize) -> usize
    ensures { result ≡ header_length_of kind count }
{
    if known(kind) {
        return long_header::header_length_for(of_code(kind), count);
    }
    0
}

// Writes the header. `count` is the number of samples over all channels.
#[unsafe(no_mangle)]
pub extern "C" fn fugnadri_wav_header(
    form: u8,
    kind: u8,
    channels: u8,
    rate: u32,
    count: usize,
    out: &mut [u8],
) -> u8
    ensures { holds result out.new ≡ header_left form kind channels rate count out.old }
{
    let f = form_of(form);
    let hertz = rate_for(form, rate);
    if known(kind) {
        let k = of_code(kind);
        return long_header::header_of(f, k, channels, hertz, count, &mut out[..]);
    }
    refusal_unlisted(channels, hertz, count)
}

// Writes a block of samples as they are stored in a file.
#[unsafe(no_mangle)]
pub extern "C" fn fugnadri_wav_store(kind: u8, samples: &[f64], out: &mut [u8]) -> u8
    ensures { holds result out.new ≡ block_left kind samples.now out.old }
{
    if known(kind) {
        return wav_store::store(of_code(kind), samples, &mut out[..]);
    }
    13
}

#[unsafe(no_mangle)]
pub extern "C" fn fugnadri_wav_store_f32(kind: u8, samples: &[f32], out: &mut [u8]) -> u8
    ensures { holds result out.new ≡ block_left kind samples.now out.old }
{
    if known(kind) {
        return wav_store::store_f32(of_code(kind), samples, &mut out[..]);
    }
    13
}
