// The absent taps of what a quality reads from a bank, and of a call that may read two qualities (W7g). The numbers of
// every reading are added.
#![tactic(auto)]

mod sums; // two readings added

ghost use Rattle.std.specs.Prelude.{◌≡◌};
ghost use Rattle.ring.specs.Length.{zeros};
ghost use Rattle.absent_qualities.specs.Readings.{of_quality, of_turn};

use absent_taps::Absent;
use bank_choice::Choice;
use quality_fade::Turn;
use quality_mode::QualityMode;
use sums::plus;

// Draft reads the cubic's four taps once; another quality reads its table's taps in the set that is chosen, or in both.
pub fn of_quality(
    choice: Choice,
    quality: QualityMode,
    len: usize,
    count: u64,
    position: f64,
) -> Absent
    ensures { result ≡ of_quality choice quality (zeros len) count position }
{
    if quality_mode::same(quality, QualityMode::Draft) {
        return absent_taps::missing(len, count, position, 4);
    }
    let taps = quality_mode::taps(quality);
    let one = absent_taps::missing(len, count, position, taps as u64);
    if choice.which < 2 {
        return one;
    }
    plus(one, one)
}

// A mixed call reads both of its qualities, any other call only one.
pub fn of_turn(choice: Choice, turn: Turn, len: usize, count: u64, position: f64) -> Absent
    ensures { result ≡ of_turn choice turn (zeros len) count position }
{
    let to = turn.to;
    let second = of_quality(choice, to, len, count, position);
    if turn.mixed {
        let from = turn.from;
        let first = of_quality(choice, from, len, count, position);
        return plus(first, second);
    }
    second
}
