// W10. The tests of the header that is to be written, defined for every input.
ghost use Rattle.std.specs.Prelude.{◌≡◌, [], ◌∷◌};
ghost use Rattle.refusal_order.specs.Order.{◌unless◌, first_of};
ghost use Rattle.long_header.specs.Refusals.{size_ok, file_verdict_for, header_verdict_for};

use crate::header_length_for;
use refusal_order::both;
use sample_kind::{SampleKind, width};
use wav_settings::{one_or_two, rate_ok, whole_frames};

// A count above 2^40 is rejected before it is multiplied, so that no product overflows.
pub(crate) fn size_ok(kind: SampleKind, count: usize) -> bool
    ensures { result ≡ size_ok kind count }
{
    if count > 0x100_0000_0000 {
        return false;
    }
    count * width(kind) <= 0x100_0000_0000
}

// The number of the first test that fails, or 0 if all pass.
fn first(t1: bool, t19: bool, t13: bool) -> u8
    ensures { result ≡ first_of (1 unless t1 ∷ 19 unless t19 ∷ 13 unless t13 ∷ []) }
{
    if t1 {
        if t19 { if t13 { 0 } else { 13 } } else { 19 }
    } else {
        1
    }
}

fn first_of_header(t1: bool, t19: bool, t13: bool, t14: bool) -> u8
    ensures { result ≡ first_of (1 unless t1 ∷ 19 unless t19 ∷ 13 unless t13 ∷ 14 unless t14 ∷ []) }
{
    if t1 {
        if t19 {
            if t13 { if t14 { 0 } else { 14 } } else { 13 }
        } else {
            19
        }
    } else {
        1
    }
}

pub(crate) fn file_refusal(kind: SampleKind, channels: u8, rate: u32, count: usize) -> u8
    ensures { result ≡ file_verdict_for kind channels rate count }
{
    let t1 = both(rate_ok(rate), whole_frames(channels, count));
    first(t1, size_ok(kind, count), one_or_two(channels))
}

pub(crate) fn header_refusal(
    kind: SampleKind,
    channels: u8,
    rate: u32,
    count: usize,
    room: usize,
) -> u8
    ensures { result ≡ header_verdict_for kind channels rate count room }
{
    let t1 = both(rate_ok(rate), whole_frames(channels, count));
    let held = header_length_for(kind, count) <= room;
    first_of_header(t1, size_ok(kind, count), one_or_two(channels), held)
}
