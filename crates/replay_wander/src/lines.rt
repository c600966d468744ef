// A line of the list: the call that its letter names, and whether what it hands out is what the line says.
use crate::engine_letters::{call, stepped};
use crate::letters::{Found, Player, settings, state};
use bit_patterns::float_of;
use replay_lines::Line;

// What a line leaves, whether it has a star, and whether another answer was found, if it has an answer.
#[derive(Clone, Copy)]
pub struct Verdict {
    pub player: Player,
    pub star: bool,
    pub differs: Option<bool>,
}

// A letter that is none of these counts as an answer that differs.
fn said(before: Player, letter: u8, a: u64, b: u64, c: u64) -> Found {
    let e = before.engine;
    let p = before.params;
    match letter {
        b'w' | b'f' | b'a' => settings(e, p, letter, float_of(a), float_of(b), float_of(c)),
        b'o' | b't' | b'd' | b'r' => call(e, p, letter, a, b, c),
        b'n' | b'x' => stepped(e, p, letter, a, b, c),
        b'0'..=b'4' => state(e, p, 3 * usize::from(letter - b'0'), a, b, c),
        _ => Found {
            player: before,
            agrees: Some(false),
        },
    }
}

pub fn heard(before: Player, line: Line) -> Verdict {
    let s = said(before, line.letter, line.a, line.b, line.c);
    Verdict {
        player: s.player,
        star: line.mark == b'*',
        differs: s.agrees.map(|agrees| !agrees),
    }
}
