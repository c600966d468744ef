// W12. The first tests of a file, those of a walk, and the order of the refusals.
ghost use Rattle.std.specs.Prelude.{◌≡◌, not, ◌&&◌, [], ◌∷◌, ◌+◌, leb};
ghost use Rattle.refusal_order.specs.Order.{◌unless◌, first_of};
ghost use Rattle.aiff.specs.Aiff.{is_aiff, inside};

use high_first::four;
use refusal_order::both;
use riff_chunks::Walked;
use word_bytes::low_first_u32;

// The test for 20: `FORM`, `AIFF`, and a FORM size that includes the latter.
pub fn is_aiff(file: &[u8]) -> bool
    ensures { result ≡ is_aiff file.now }
{
    both(
        file.len() >= 12,
        both(
            low_first_u32(file, 0) == 0x4d52_4f46,
            both(low_first_u32(file, 8) == 0x4646_4941, four(file, 4) >= 4),
        ),
    )
}

// The test for 10: no walked chunk runs past the end.
pub fn is_inside(end: usize, walked: Walked) -> bool
    ensures { result ≡ inside end walked }
{
    let samples = walked.samples;
    both(!walked.overruns, ends_by(samples.body, samples.size, end))
}

fn ends_by(body: usize, size: usize, end: usize) -> bool
    ensures { result ≡ leb (body + size) end }
{
    if end < size {
        return false;
    }
    body <= end - size
}

// The number of the first test that fails; 0 if all pass. 21 stands on both sides of 13.
pub fn first(t20: bool, t10: bool, t21: bool, t13: bool, frames: bool, t22: bool) -> u8
    ensures { result ≡ first_of
        (20 unless t20 ∷ 10 unless t10 ∷ 21 unless t21 ∷ 13 unless t13 ∷ 21 unless frames ∷ 22 unless t22 ∷ []) }
{
    if t20 {
        if t10 {
            if t21 {
                if t13 {
                    if frames { if t22 { 0 } else { 22 } } else { 21 }
                } else {
                    13
                }
            } else {
                21
            }
        } else {
            10
        }
    } else {
        20
    }
}
