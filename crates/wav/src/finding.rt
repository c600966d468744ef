// W1. The answer, once the first tests have been made, the chunks walked and the body of `fmt ` read.
ghost use Rattle.std.specs.Prelude.{◌≡◌};
ghost use Rattle.wav.specs.Wave.{found_of};

use crate::first_tests::first;
use crate::{Found, Wave};
use little_endian::two;
use riff_chunks::Walked;
use wav_format::{format_ok, kind_of};
use word_bytes::low_first_u32;

// `wave` and `inside` are the tests for 9 and 10; `tag` is what the reading takes for the tag of the `fmt ` with the
// body f.
pub fn finish(wave: bool, inside: bool, tag: u32, f: &[u8], walked: Walked) -> Found
    ensures { result ≡ found_of wave inside tag f.now walked }
{
    let format = walked.format;
    let samples = walked.samples;
    let refusal = first(
        wave,
        inside,
        format.found,
        samples.found,
        format_ok(tag, f, format.size, samples.size),
    );
    if refusal != 0 {
        return Found::Refused(refusal);
    }
    let kind = kind_of(tag, two(f, 14));
    let channels = two(f, 2);
    let rate = low_first_u32(f, 4);
    Found::Wave(Wave {
        kind,
        channels: channels as u8,
        rate,
        start: samples.body,
        length: samples.size,
    })
}
