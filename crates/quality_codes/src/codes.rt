// A quality, a rule and a direction as their numbers, a quality reader's state as plain numbers, and the refusal where
// a number names nothing.
ghost use Rattle.std.specs.Prelude.{◌≡◌, ◌&&◌, cond};
ghost use Rattle.quality_codes.specs.Codes.{mode_of, rule_of, direction_of, decoded, coded, fields_ok, odd_number};

use super::Coded;
use quality_mode::QualityMode;
use quality_variable_delay::QualityVariableDelayF32;
use refusal_order::both;
use returning_fade::{Direction, Rule};

pub fn mode(code: u8) -> QualityMode
    ensures { result ≡ mode_of code }
{
    match code {
        0 => QualityMode::Draft,
        1 => QualityMode::Normal,
        2 => QualityMode::Hq,
        _ => QualityMode::Ultra,
    }
}

fn rule(code: u8) -> Rule
    ensures { result ≡ rule_of code }
{
    if code == 0 {
        Rule::Ported
    } else {
        Rule::Returning
    }
}

fn direction(code: u8) -> Direction
    ensures { result ≡ direction_of code }
{
    if code == 0 {
        Direction::Onwards
    } else {
        Direction::Back
    }
}

pub fn decode(s: Coded) -> QualityVariableDelayF32
    ensures { result ≡ decoded s }
{
    let current = mode(s.current);
    let target = mode(s.target);
    QualityVariableDelayF32 {
        maximum: s.maximum,
        margin: s.margin,
        accepted: s.accepted,
        current_quality: current,
        target_quality: target,
        crossfade_position: s.crossfade_position,
        crossfade_samples: s.crossfade_samples,
        rule: rule(s.rule),
        direction: direction(s.direction),
    }
}

pub fn encode(d: QualityVariableDelayF32) -> Coded
    ensures { result ≡ coded d }
{
    let current = d.current_quality;
    let target = d.target_quality;
    let rule = d.rule;
    let direction = d.direction;
    Coded {
        maximum: d.maximum,
        margin: d.margin,
        accepted: d.accepted,
        current: quality_mode::code(current),
        target: quality_mode::code(target),
        crossfade_position: d.crossfade_position,
        crossfade_samples: d.crossfade_samples,
        rule: returning_fade::rule_code(rule),
        direction: returning_fade::direction_code(direction),
    }
}

pub fn fields_ok(s: Coded) -> bool
    ensures { result ≡ fields_ok s }
{
    both(
        both(s.current <= 3, s.target <= 3),
        both(s.rule <= 1, s.direction <= 1),
    )
}

fn number(test: bool, a: u8, b: u8) -> u8
    ensures { result ≡ cond test a b }
{
    if test { a } else { b }
}

// The refusal when a number names nothing: 1 if it is the requested quality's; otherwise 3, unless `v`, the refusal
// without it, is already 1 or 2.
pub fn odd(asked: bool, v: u8) -> u8
    ensures { result ≡ odd_number asked v }
{
    let early = number(both(1 <= v, v <= 2), v, 3);
    number(asked, early, 1)
}
