// Q1, Q2, W9. A change of quality: a line opens, requests or resets, and its two words are what that leaves.
use super::{Turn, Words, refused};
use quality_fade::Fade;
use quality_mode::{QualityMode, code};
use refusal::Refusal;
use returning_fade::{Direction, Rule, RuledFade, direction_code};

// Packs four small numbers into one word, two hex digits each.
fn four(a: u8, b: u8, c: u8, d: u8) -> u64 {
    u64::from(u32::from_be_bytes([a, b, c, d]))
}

// The first word holds the direction, the current and target quality and whether the call was mixed; the second holds
// the place and the weight that the target had.
fn left(rule: Rule, direction: Direction, fade: Fade, mixed: bool, weight: u32) -> Turn {
    Turn {
        fade: RuledFade {
            rule,
            direction,
            fade,
        },
        words: Words {
            first: four(
                direction_code(direction),
                code(fade.current),
                code(fade.target),
                u8::from(mixed),
            ),
            second: u64::from(fade.crossfade_position) * 0x1_0000_0000 + u64::from(weight),
        },
    }
}

fn kept(fade: RuledFade, refusal: Refusal) -> Turn {
    Turn {
        fade,
        words: refused(refusal.number()),
    }
}

fn turned(before: RuledFade, asked: QualityMode) -> Turn {
    let r = returning_fade::step(before, asked);
    left(
        before.rule,
        r.direction,
        r.turn.state,
        r.turn.mixed,
        r.turn.weight,
    )
}

fn named(word: u64) -> Result<QualityMode, Refusal> {
    QualityMode::try_from((word % 256) as u8)
}

pub fn open(before: RuledFade, rule: Rule, word: u64, length: u32) -> Turn {
    match named(word) {
        Ok(q) => left(
            rule,
            Direction::Onwards,
            quality_fade::open(q, length),
            false,
            0,
        ),
        Err(refusal) => kept(before, refusal),
    }
}

pub fn step(before: RuledFade, word: u64) -> Turn {
    match named(word) {
        Ok(q) => turned(before, q),
        Err(refusal) => kept(before, refusal),
    }
}

pub fn reset(before: RuledFade) -> Turn {
    let fade = quality_fade::reset(before.fade);
    left(before.rule, Direction::Onwards, fade, false, 0)
}
