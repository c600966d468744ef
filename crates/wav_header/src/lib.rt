// W2. The bytes of a RIFF WAVE file before its samples, 44 for PCM and 58 for float, and whether a file fits RIFF.
#![tactic(auto)]

mod fields; // the header, field by field
mod tests; // the tests of each refusal

ghost use Rattle.std.specs.Prelude.{◌≡◌, length};
ghost use Rattle.wav_header.specs.Header.{header_length};
ghost use Rattle.wav_header.specs.Refusals.{unlisted_verdict, header_verdict, header_in};

use fields::put_header;
use refusal_order::both;
use sample_kind::SampleKind;
pub use tests::fits_riff;
use tests::{first_of_file, header_refusal};
use wav_settings::{rate_ok, whole_frames};

pub fn header_length(kind: SampleKind) -> usize
    ensures { result ≡ header_length kind }
{
    match kind {
        SampleKind::Pcm16 => 44,
        SampleKind::Pcm24 => 44,
        SampleKind::Float32 => 58,
    }
}

// The refusal for a kind that is none of the three: 1 if the rate is out of range or the count is not whole frames,
// otherwise 13.
pub fn refusal_unlisted(channels: u8, rate: u32, count: usize) -> u8
    ensures { result ≡ unlisted_verdict channels rate count }
{
    let t1 = both(rate_ok(rate), whole_frames(channels, count));
    first_of_file(t1, false)
}

// Refuses by 1, 2 or 13, or writes the header. The block must have exactly the header's length.
pub fn write_header(kind: SampleKind, channels: u8, rate: u32, count: usize, out: &mut [u8]) -> u8
    ensures value { result ≡ header_verdict kind channels rate count (length out.old) }
    ensures out_after { out.new ≡ header_in kind channels rate count out.old }
{
    let refused = header_refusal(kind, channels, rate, count, out.len());
    if refused != 0 {
        return refused;
    }
    put_header(kind, channels, rate, count, &mut out[..]);
    0
}
