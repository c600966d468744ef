// W2. The tests of the header that is to be written, defined for every input.
ghost use Rattle.std.specs.Prelude.{◌≡◌, [], ◌∷◌};
ghost use Rattle.refusal_order.specs.Order.{◌unless◌, first_of};
ghost use Rattle.wav_header.specs.Refusals.{fits_riff, count_ok, header_verdict};

use crate::fields::length_of;
use crate::header_length;
use refusal_order::both;
use sample_kind::SampleKind;
use wav_settings::{one_or_two, rate_ok, whole_frames};

fn count_ok(kind: SampleKind, channels: u8, count: usize) -> bool
    ensures { result ≡ count_ok kind channels count }
{
    both(whole_frames(channels, count), fits_riff(kind, count))
}

// A count of 2^32 or more is rejected before it is multiplied, so that no product overflows.
pub fn fits_riff(kind: SampleKind, count: usize) -> bool
    ensures { result ≡ fits_riff kind count }
{
    if count >= 0x1_0000_0000 {
        return false;
    }
    length_of(kind, count) - 8 <= 0xffff_ffff
}

// The number of the first test that fails, or 0 if all pass.
pub(crate) fn first_of_file(t1: bool, t13: bool) -> u8
    ensures { result ≡ first_of (1 unless t1 ∷ 13 unless t13 ∷ []) }
{
    if t1 { if t13 { 0 } else { 13 } } else { 1 }
}

fn first_of_header(t1: bool, t2: bool, t13: bool) -> u8
    ensures { result ≡ first_of (1 unless t1 ∷ 2 unless t2 ∷ 13 unless t13 ∷ []) }
{
    if t1 {
        if t2 { if t13 { 0 } else { 13 } } else { 2 }
    } else {
        1
    }
}

pub(crate) fn header_refusal(
    kind: SampleKind,
    channels: u8,
    rate: u32,
    count: usize,
    room: usize,
) -> u8
    ensures { result ≡ header_verdict kind channels rate count room }
{
    let t1 = both(rate_ok(rate), count_ok(kind, channels, count));
    first_of_header(t1, room == header_length(kind), one_or_two(channels))
}
