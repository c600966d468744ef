// Opening and reset of the quality reader for C (Q3): each writes the state's numbers through pointers, unchanged if
// refused, and returns the refusal number, 0 for none. There is an opening for each rule, so that no caller passes a
// rule's number (W9h); an opening writes the rule too.
ghost use Rattle.std.specs.Prelude.{◌≡◌};
ghost use Rattle.answer_parts.specs.Left.{renews};
ghost use Rattle.returning_fade.specs.declared.Rule.TheVariants.{Ported, Returning};
ghost use Rattle.quality_codes.specs.Codes.{state_of};
ghost use Rattle.quality_codes.specs.Left.{changed, with_rule, opened_left, reset_left};

use quality_codes::Coded;
use returning_fade::Rule;

fn open_by(
    chosen: Rule,
    maximum: usize,
    margin: usize,
    quality: u8,
    crossfade_samples: u32,
    accepted: &mut u64,
    current: &mut u8,
    target: &mut u8,
    crossfade_position: &mut u32,
    rule: &mut u8,
    direction: &mut u8,
    ring: &mut [f32],
) -> u8
    ensures { renews result
        (with_rule rule.new
        (changed accepted.new current.new target.new crossfade_position.new
        direction.new))
        ring.new
        ≡ opened_left chosen
        (with_rule rule.old
        (changed accepted.old current.old target.old
        crossfade_position.old direction.old))
        maximum margin quality crossfade_samples ring.old }
{
    let state = Coded {
        maximum: maximum,
        margin: margin,
        accepted: 0,
        current: quality,
        target: quality,
        crossfade_position: crossfade_samples,
        crossfade_samples: crossfade_samples,
        rule: returning_fade::rule_code(chosen),
        direction: 0,
    };
    let c = quality_codes::renew(quality <= 3, state, &mut ring[..]);
    if c.number != 0 {
        return c.number;
    }
    let after = c.state;
    *accepted = after.accepted;
    *current = after.current;
    *target = after.target;
    *crossfade_position = after.crossfade_position;
    *rule = after.rule;
    *direction = after.direction;
    0
}

#[unsafe(no_mangle)]
pub extern "C" fn fugnadri_quality_open(
    maximum: usize,
    margin: usize,
    quality: u8,
    crossfade_samples: u32,
    accepted: &mut u64,
    current: &mut u8,
    target: &mut u8,
    crossfade_position: &mut u32,
    rule: &mut u8,
    direction: &mut u8,
    ring: &mut [f32],
) -> u8
    ensures { renews result
        (with_rule rule.new
        (changed accepted.new current.new target.new crossfade_position.new
        direction.new))
        ring.new
        ≡ opened_left Ported
        (with_rule rule.old
        (changed accepted.old current.old target.old
        crossfade_position.old direction.old))
        maximum margin quality crossfade_samples ring.old }
{
    open_by(
        Rule::Ported,
        maximum,
        margin,
        quality,
        crossfade_samples,
        accepted,
        current,
        target,
        crossfade_position,
        rule,
        direction,
        ring,
    )
}

#[unsafe(no_mangle)]
pub extern "C" fn fugnadri_quality_open_returning(
    maximum: usize,
    margin: usize,
    quality: u8,
    crossfade_samples: u32,
    accepted: &mut u64,
    current: &mut u8,
    target: &mut u8,
    crossfade_position: &mut u32,
    rule: &mut u8,
    direction: &mut u8,
    ring: &mut [f32],
) -> u8
    ensures { renews result
        (with_rule rule.new
        (changed accepted.new current.new target.new crossfade_position.new
        direction.new))
        ring.new
        ≡ opened_left Returning
        (with_rule rule.old
        (changed accepted.old current.old target.old
        crossfade_position.old direction.old))
        maximum margin quality crossfade_samples ring.old }
{
    open_by(
        Rule::Returning,
        maximum,
        margin,
        quality,
        crossfade_samples,
        accepted,
        current,
        target,
        crossfade_position,
        rule,
        direction,
        ring,
    )
}

#[unsafe(no_mangle)]
pub extern "C" fn fugnadri_quality_reset(
    maximum: usize,
    margin: usize,
    accepted: &mut u64,
    current: &mut u8,
    target: &mut u8,
    crossfade_position: &mut u32,
    crossfade_samples: u32,
    rule: u8,
    direction: &mut u8,
    ring: &mut [f32],
) -> u8
    ensures { renews result
        (changed accepted.new current.new target.new crossfade_position.new
        direction.new)
        ring.new
        ≡ reset_left
        (state_of maximum margin accepted.old current.old target.old
        crossfade_position.old crossfade_samples rule direction.old)
        ring.old }
{
    let state = Coded {
        maximum: maximum,
        margin: margin,
        accepted: *accepted,
        current: *current,
        target: *target,
        crossfade_position: *crossfade_position,
        crossfade_samples: crossfade_samples,
        rule: rule,
        direction: *direction,
    };
    let c = quality_codes::renew(true, state, &mut ring[..]);
    let after = c.state;
    *accepted = after.accepted;
    *current = after.current;
    *target = after.target;
    *crossfade_position = after.crossfade_position;
    *direction = after.direction;
    c.number
}
