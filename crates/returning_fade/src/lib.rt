// The second rule for a change of quality: going back lowers the weight again from where it is, and a third quality
// waits until the running fade has ended (W9). The ported rule stands beside it, as in `quality_fade`.
#![tactic(auto)]

mod returning; // the second rule

ghost use Rattle.std.specs.Prelude.{◌≡◌};
ghost use Rattle.returning_fade.specs.Rules.{rule_code, direction_code, place_ok};
ghost use Rattle.returning_fade.specs.Step.{step_of};
ghost use Rattle.returning_fade.specs.Inner.{handed_by};

use quality_fade::{Fade, Turn};
use quality_mode::QualityMode;
use returning::Handed;

// W9a. The rule is chosen when a reader is opened. Ported is 000's, by which going back jumps.
#[derive(Clone, Copy)]
pub enum Rule {
    Ported,
    Returning,
}

// Where a running fade goes: on to its target, or back to the current quality. The ported rule never goes back.
#[derive(Clone, Copy)]
pub enum Direction {
    Onwards,
    Back,
}

// What a reader holds of its qualities.
#[derive(Clone, Copy)]
pub struct RuledFade {
    pub rule: Rule,
    pub direction: Direction,
    pub fade: Fade,
}

// What an accepted call does, and the direction that it leaves.
#[derive(Clone, Copy)]
pub struct RuledTurn {
    pub turn: Turn,
    pub direction: Direction,
}

// A rule's number, for interfaces that pass only numbers.
pub fn rule_code(rule: Rule) -> u8
    ensures { result ≡ rule_code rule }
{
    rule as u8
}

// A direction's number, for interfaces that pass only numbers.
pub fn direction_code(direction: Direction) -> u8
    ensures { result ≡ direction_code direction }
{
    direction as u8
}

// W9g. Whether the place and the direction are in their ranges.
pub fn place_ok(state: RuledFade) -> bool
    ensures { result ≡ place_ok state }
{
    let rule = state.rule;
    let direction = state.direction;
    match rule {
        Rule::Ported => match direction {
            Direction::Onwards => quality_fade::place_ok(state.fade),
            Direction::Back => false,
        },
        Rule::Returning => returning::place_ok(direction, state.fade),
    }
}

// What the ported rule's step is given. By the ported rule that is the state and the request unchanged.
fn handed(state: RuledFade, asked: QualityMode) -> Handed
    ensures { result ≡ handed_by state.rule state.direction state.fade asked }
{
    let rule = state.rule;
    let direction = state.direction;
    let fade = state.fade;
    let target = fade.target;
    match rule {
        Rule::Ported => Handed {
            target: target,
            place: fade.crossfade_position,
            asked: asked,
            direction: direction,
        },
        Rule::Returning => returning::aim(direction, fade, asked),
    }
}

// One accepted call that requests a quality. By either rule it is one step of the ported rule. For a state out of range
// it is the call of `quality_fade::step`.
pub fn step(state: RuledFade, asked: QualityMode) -> RuledTurn
    ensures { result ≡ step_of state asked }
{
    let to = handed(state, asked);
    let target = to.target;
    let wanted = to.asked;
    let direction = to.direction;
    let fade = state.fade;
    let current = fade.current;
    let ported = Fade {
        current: current,
        target: target,
        crossfade_position: to.place,
        crossfade_samples: fade.crossfade_samples,
    };
    RuledTurn {
        turn: quality_fade::step(ported, wanted),
        direction: direction,
    }
}
