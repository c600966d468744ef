// W1. How the tag is read from the body of a `fmt ` and its size.
ghost use Rattle.std.specs.Prelude.{◌≡◌};
ghost use Rattle.wav_format.specs.Tags.{standard_tail, wraps, wrapped_tag, tag_by};

use little_endian::two;
use refusal_order::both;
use word_bytes::low_first_u32;

// The tag as it stands, or, if wrapped kinds are accepted, the one inside.
pub fn tag_of(wrapped: bool, f: &[u8], size: usize) -> u32
    ensures { result ≡ tag_by wrapped f.now size }
{
    if wrapped {
        return unwrapped(f, size);
    }
    two(f, 0)
}

fn unwrapped(f: &[u8], size: usize) -> u32
    ensures { result ≡ wrapped_tag f.now size }
{
    if is_wrapped(f, size) {
        return two(f, 24);
    }
    two(f, 0)
}

// The tag is WAVE_FORMAT_EXTENSIBLE, all bits are valid, and the standard tail follows.
fn is_wrapped(f: &[u8], size: usize) -> bool
    ensures { result ≡ wraps f.now size }
{
    both(
        two(f, 0) == 0xfffe,
        both(
            size >= 40,
            both(
                two(f, 16) >= 22,
                both(two(f, 18) == two(f, 14), has_tail(f)),
            ),
        ),
    )
}

// The tail's bytes are 00 00, 00 00 10 00, 80 00 00 AA, 00 38 9B 71.
fn has_tail(f: &[u8]) -> bool
    ensures { result ≡ standard_tail f.now }
{
    both(
        two(f, 26) == 0,
        both(
            low_first_u32(f, 28) == 0x0010_0000,
            both(
                low_first_u32(f, 32) == 0xaa00_0080,
                low_first_u32(f, 36) == 0x719b_3800,
            ),
        ),
    )
}
