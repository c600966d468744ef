// W1. The first tests of a file, and the order of the refusals 9 to 13.
ghost use Rattle.std.specs.Prelude.{◌≡◌, cond, not, ◌&&◌, ◌+◌, leb, length, [], ◌∷◌};
ghost use Rattle.wav.specs.Wave.{is_wave, riff_size};
ghost use Rattle.refusal_order.specs.Order.{◌unless◌, first_of};

use refusal_order::both;
use word_bytes::low_first_u32;

// The test for 9: `RIFF`, `WAVE`, and a RIFF size that includes the latter.
pub fn is_wave(file: &[u8]) -> bool
    ensures { result ≡ is_wave file.now }
{
    both(
        file.len() >= 12,
        both(
            low_first_u32(file, 0) == 0x4646_4952,
            both(
                low_first_u32(file, 8) == 0x4556_4157,
                low_first_u32(file, 4) >= 4,
            ),
        ),
    )
}

// The test for 10, in which the RIFF counts as a chunk.
pub fn within(file: &[u8], overruns: bool) -> bool
    ensures { result ≡ leb (8 + riff_size file.now) (length file.now) && not overruns }
{
    let end = 8 + low_first_u32(file, 4) as usize;
    both(end <= file.len(), !overruns)
}

// The refusal of a file past whose end the RIFF runs.
pub fn past(is: bool) -> u8
    ensures { result ≡ cond is 10 9 }
{
    if is { 10 } else { 9 }
}

// The lowest number whose test fails; 0 if all pass.
pub fn first(t9: bool, t10: bool, t11: bool, t12: bool, t13: bool) -> u8
    ensures { result ≡ first_of (9 unless t9 ∷ 10 unless t10 ∷ 11 unless t11 ∷ 12 unless t12 ∷ 13 unless t13 ∷ []) }
{
    if t9 {
        if t10 {
            if t11 {
                if t12 { if t13 { 0 } else { 13 } } else { 12 }
            } else {
                11
            }
        } else {
            10
        }
    } else {
        9
    }
}
