// The original's QualityMode (000): the four qualities by their numbers, the default, and the taps and phases of each.
#![tactic(auto)]

ghost use Rattle.std.specs.Prelude.{◌≡◌};
ghost use Rattle.quality_mode.specs.Quality.{default_quality, code_of, same_q, taps_of, phases_of};
ghost use Rattle.quality_mode.specs.Names.{named_of};

use refusal::Refusal;

#[derive(Clone, Copy, PartialEq, Eq)]
pub enum QualityMode {
    Draft,
    Normal,
    Hq,
    Ultra,
}

// 000's QualityMode::default.
pub fn default_quality() -> QualityMode
    ensures { result ≡ default_quality }
{
    QualityMode::Hq
}

// N1. The quality with a number; a number above 3 is an argument out of its range.
impl TryFrom<u8> for QualityMode {
    type Error = Refusal;

    ghost try_from_gives = { λ code r. r ≡ named_of code };

    fn try_from(code: u8) -> Result<Self, Refusal> {
        match code {
            0 => Ok(QualityMode::Draft),
            1 => Ok(QualityMode::Normal),
            2 => Ok(QualityMode::Hq),
            3 => Ok(QualityMode::Ultra),
            _ => Err(Refusal::Setting),
        }
    }
}

// N1. The same by name.
pub fn of_code(code: u8) -> Result<QualityMode, Refusal>
    ensures { result ≡ named_of code }
{
    QualityMode::try_from(code)
}

// A quality as a number, its place in 000's list, for callers that can only pass numbers.
pub fn code(quality: QualityMode) -> u8
    ensures { result ≡ code_of quality }
{
    quality as u8
}

// 000's `==` on two qualities.
pub fn same(a: QualityMode, b: QualityMode) -> bool
    ensures { result ≡ same_q a b }
{
    a == b
}

// The taps of a quality's table. Draft reads no table, so it has none.
pub fn taps(quality: QualityMode) -> usize
    ensures { result ≡ taps_of quality }
{
    match quality {
        QualityMode::Draft => 0,
        QualityMode::Normal => 80,
        QualityMode::Hq => 96,
        QualityMode::Ultra => 128,
    }
}

// The phases of a quality's table. Draft reads no table, so it has none.
pub fn phases(quality: QualityMode) -> usize
    ensures { result ≡ phases_of quality }
{
    match quality {
        QualityMode::Draft => 0,
        QualityMode::Normal => 2048,
        QualityMode::Hq => 4096,
        QualityMode::Ultra => 4096,
    }
}
