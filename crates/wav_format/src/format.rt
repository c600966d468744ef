// W1. What a `fmt ` says, and whether its kind is listed.
ghost use Rattle.std.specs.Prelude.{◌≡◌, ◌&&◌, ◌||◌};
ghost use Rattle.wav_format.specs.Format.{listed, kind_of, whole_frames, format_ok};

use little_endian::two;
use refusal_order::both;
use sample_kind::SampleKind;

// The test for 13, by the tag that was read.
pub fn format_ok(tag: u32, f: &[u8], size: usize, samples: usize) -> bool
    ensures { result ≡ format_ok tag f.now size samples }
{
    let channels = two(f, 2);
    let block = two(f, 12);
    let bits = two(f, 14);
    both(
        size >= 16,
        both(
            is_listed(tag, bits),
            both(
                either(channels == 1, channels == 2),
                both(
                    block == channels * (bits / 8),
                    whole_frames(samples, block as usize),
                ),
            ),
        ),
    )
}

fn is_listed(tag: u32, bits: u32) -> bool
    ensures { result ≡ listed tag bits }
{
    either(
        both(tag == 1, either(bits == 16, bits == 24)),
        both(tag == 3, bits == 32),
    )
}

pub fn kind_of(tag: u32, bits: u32) -> SampleKind
    ensures { result ≡ kind_of tag bits }
{
    if tag == 3 {
        return SampleKind::Float32;
    }
    if bits == 16 {
        return SampleKind::Pcm16;
    }
    SampleKind::Pcm24
}

fn whole_frames(size: usize, frame: usize) -> bool
    ensures { result ≡ whole_frames size frame }
{
    if frame == 0 {
        return false;
    }
    size % frame == 0
}

fn either(a: bool, b: bool) -> bool
    ensures { result ≡ a || b }
{
    if a { true } else { b }
}
