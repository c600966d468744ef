// The second rule, on a fade and its direction.
ghost use Rattle.std.specs.Prelude.{◌≡◌};
ghost use Rattle.returning_fade.specs.Rules.{backwards, returning_ok};
ghost use Rattle.returning_fade.specs.Step.{aim_of};
ghost use Rattle.returning_fade.specs.Inner.{lower_aim, aimed_at};

use super::Direction;
use quality_fade::Fade;
use quality_mode::{QualityMode, same};

fn back(direction: Direction) -> bool
    ensures { result ≡ backwards direction }
{
    match direction {
        Direction::Onwards => false,
        Direction::Back => true,
    }
}

// Whether the place and the direction are in their ranges: nothing goes back if no fade runs, and a running fade has a
// place above 0, because at 0 it would have ended.
pub(crate) fn place_ok(direction: Direction, fade: Fade) -> bool
    ensures { result ≡ returning_ok direction fade }
{
    let current = fade.current;
    let target = fade.target;
    if same(current, target) {
        if back(direction) {
            return false;
        }
        return fade.crossfade_position <= fade.crossfade_samples;
    }
    if 0 < fade.crossfade_position {
        return fade.crossfade_position < fade.crossfade_samples;
    }
    false
}

// Whether a running fade goes back in a call that requests a quality.
fn goes_back(direction: Direction, fade: Fade, asked: QualityMode) -> bool
    ensures { result ≡ backwards (aim_of direction fade asked) }
{
    let current = fade.current;
    let target = fade.target;
    if same(asked, target) {
        return false;
    }
    if same(asked, current) {
        return true;
    }
    back(direction)
}

// What the ported rule's step is given for a fade and a request by the second rule: the fade's target and place, and
// the request; and the direction that is left. Choosing between single numbers is cheaper than choosing between two
// fades.
#[derive(Clone, Copy)]
pub(crate) struct Handed {
    pub target: QualityMode,
    pub place: u32,
    pub asked: QualityMode,
    pub direction: Direction,
}

// One step down is the ported rule's step from two places lower. At place 1 it is a call in the current quality, in the
// state that opening leaves, because at the weight 0 the target would be read for nothing.
fn lower(fade: Fade) -> Handed
    ensures { result ≡ lower_aim fade }
{
    let current = fade.current;
    let target = fade.target;
    if fade.crossfade_position <= 1 {
        return Handed {
            target: current,
            place: fade.crossfade_samples,
            asked: current,
            direction: Direction::Onwards,
        };
    }
    Handed {
        target: target,
        place: fade.crossfade_position - 2,
        asked: target,
        direction: Direction::Back,
    }
}

// Turns every call into one step of the ported rule, so that the reader makes its step in one place only.
pub(crate) fn aim(direction: Direction, fade: Fade, asked: QualityMode) -> Handed
    ensures { result ≡ aimed_at direction fade asked }
{
    let current = fade.current;
    let target = fade.target;
    let place = fade.crossfade_position;
    if quality_fade::length_ok(fade.crossfade_samples) {
        if place_ok(direction, fade) {
            if same(current, target) {
                return Handed {
                    target: target,
                    place: place,
                    asked: asked,
                    direction: Direction::Onwards,
                };
            }
            if goes_back(direction, fade, asked) {
                return lower(fade);
            }
            return Handed {
                target: target,
                place: place,
                asked: target,
                direction: Direction::Onwards,
            };
        }
    }
    Handed {
        target: target,
        place: place,
        asked: asked,
        direction: direction,
    }
}
