// W2, W10e. Writing a whole file into a lent buffer: returns the refusal number, 0 for none, and writes the file's
// length, 0 if refused.
ghost use Rattle.std.specs.Prelude.{◌≡◌};
ghost use Rattle.fugnadri_wav_write.specs.Exports.{leaves, file_left, number_of, size_of, length_of};

use crate::codes::{form_of, known, rate_for};
use sample_kind::of_code;
use wav_header::refusal_unlisted;
use wav_write::Written;

#[unsafe(no_mangle)]
pub extern "C" fn fugnadri_wav_write(
    form: u8,
    kind: u8,
    channels: u8,
    rate: u32,
    samples: &[f64],
    out: &mut [u8],
    written: &mut usize,
) -> u8
    ensures { leaves result written.new out.new
        ≡ file_left form kind channels rate samples.now out.old }
{
    let f = form_of(form);
    let hertz = rate_for(form, rate);
    if known(kind) {
        let k = of_code(kind);
        let answer = wav_write::write(f, k, channels, hertz, samples, &mut out[..]);
        *written = size(answer);
        return number(answer);
    }
    *written = 0;
    refusal_unlisted(channels, hertz, samples.len())
}

#[unsafe(no_mangle)]
pub extern "C" fn fugnadri_wav_write_f32(
    form: u8,
    kind: u8,
    channels: u8,
    rate: u32,
    samples: &[f32],
    out: &mut [u8],
    written: &mut usize,
) -> u8
    ensures { leaves result written.new out.new
        ≡ file_left form kind channels rate samples.now out.old }
{
    let f = form_of(form);
    let hertz = rate_for(form, rate);
    if known(kind) {
        let k = of_code(kind);
        let answer = wav_write::write_f32(f, k, channels, hertz, samples, &mut out[..]);
        *written = size(answer);
        return number(answer);
    }
    *written = 0;
    refusal_unlisted(channels, hertz, samples.len())
}

// The length of a file of `count` samples over all channels, or 0 if 1, 19 or 13 refuses it at every rate.
#[unsafe(no_mangle)]
pub extern "C" fn fugnadri_wav_file_length(kind: u8, channels: u8, count: usize) -> usize
    ensures { result ≡ length_of kind channels count }
{
    if known(kind) {
        return long_header::file_length_for(of_code(kind), channels, count);
    }
    0
}

fn number(answer: Written) -> u8
    ensures { result ≡ number_of answer }
{
    match answer {
        Written::Length(_) => 0,
        Written::Refused(k) => k,
    }
}

fn size(answer: Written) -> usize
    ensures { result ≡ size_of answer }
{
    match answer {
        Written::Length(n) => n,
        Written::Refused(_) => 0,
    }
}
