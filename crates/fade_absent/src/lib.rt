// The absent taps of a whole stretch of the quality reader: W7's numbers, summed over the items done (W3g). They are
// computed beside the stretch, from its delays, while the fade goes on item by item as by single calls (W3f).
#![tactic(auto)]

ghost use Rattle.std.specs.Prelude.{◌≡◌};
ghost use Rattle.ring.specs.Length.{zeros};
ghost use Rattle.variable_delay.specs.Reader.{position_of};
ghost use Rattle.returning_fade.specs.Step.{step_of};
ghost use Rattle.absent_qualities.specs.Readings.{of_turn};
ghost use Rattle.fade_absent.specs.Sums.{next_of, sums_of};

use absent_taps::Absent;
use bank_choice::Choice;
use constants::LIMIT;
use quality_mode::QualityMode;
use returning_fade::RuledFade;

// The absent taps of one accepted call, and the fade that it leaves.
#[derive(Drop)]
struct Step {
    fade: RuledFade,
    absent: Absent,
}

fn turned(
    fade: RuledFade,
    quality: QualityMode,
    choice: Choice,
    len: usize,
    i: u64,
    after: u64,
    delay: f64,
) -> Step
    ensures fade_value { result.fade ≡ next_of quality fade }
    ensures absent_value { result.absent ≡
        of_turn choice (step_of fade quality).turn (zeros len) after (position_of i delay) }
{
    let t = returning_fade::step(fade, quality);
    let rule = fade.rule;
    let direction = t.direction;
    let turn = t.turn;
    let left = turn.state;
    let position = std::num::nearest_u64_to_f64(i) - delay;
    let absent = absent_qualities::of_turn(choice, turn, len, after, position);
    Step {
        fade: RuledFade {
            rule,
            direction,
            fade: left,
        },
        absent,
    }
}

// The sums over the first `done` items of a stretch that requests one quality. `before` is the number of samples
// accepted before it, `len` the ring's length. For more items than a reader accepts they are three zeros.
pub fn absent_in(
    len: usize,
    before: u64,
    fade: RuledFade,
    choice: Choice,
    quality: QualityMode,
    delays: &[f64],
    done: usize,
) -> Absent
    ensures { result ≡ sums_of len before fade choice quality delays.now done }
{
    let n = done.min(delays.len());
    if before > LIMIT {
        return absent_taps::nothing();
    }
    if n as u64 > LIMIT - before {
        return absent_taps::nothing();
    }
    let mut running = fade;
    let mut unwritten: u64 = 0;
    let mut ahead: u64 = 0;
    let mut overwritten: u64 = 0;
    for k in 0..n {
        let i = before + k as u64;
        let t = turned(running, quality, choice, len, i, i + 1, delays[k]);
        let a = t.absent;
        running = t.fade;
        unwritten += a.unwritten;
        ahead += a.ahead;
        overwritten += a.overwritten;
    }
    Absent {
        unwritten,
        ahead,
        overwritten,
    }
}
