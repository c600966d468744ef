// T5. The part of one of two lent sets that a quality reads.
ghost use Rattle.std.specs.Prelude.{◌≡◌};
ghost use Rattle.sinc_bank_f32.specs.Parts.{start_of, end_of, lent_of, chosen_of};

use constants::SET_LENGTH;
use quality_mode::QualityMode;

fn start(quality: QualityMode) -> usize
    ensures { result ≡ start_of quality }
{
    match quality {
        QualityMode::Draft => 0,
        QualityMode::Normal => 0,
        QualityMode::Hq => 163920,
        QualityMode::Ultra => 557232,
    }
}

fn end(quality: QualityMode) -> usize
    ensures { result ≡ end_of quality }
{
    match quality {
        QualityMode::Draft => 0,
        QualityMode::Normal => 163920,
        QualityMode::Hq => 557232,
        QualityMode::Ultra => SET_LENGTH,
    }
}

// The table of a quality in a lent set; empty for Draft, and if the slice has not a set's length.
fn part<'a>(set: &'a [f32], quality: QualityMode) -> &'a [f32]
    ensures { result.now ≡ lent_of quality set.now }
{
    let a = start(quality);
    let e = end(quality);
    if set.len() == SET_LENGTH {
        return &set[a..e];
    }
    &set[0..0]
}

// The same from the tighter set, or from the safe one.
pub fn chosen<'a>(
    safe: &'a [f32],
    tighter: &'a [f32],
    tight: bool,
    quality: QualityMode,
) -> &'a [f32]
    ensures { result.now ≡ chosen_of safe.now tighter.now tight quality }
{
    if tight {
        return part(tighter, quality);
    }
    part(safe, quality)
}
