// What a reader answers to a line, and what it leaves.
use crate::lines::{Player, Shape, say};
use answer::{Answer, AnswerF32};
use bit_patterns::{bits_of, bits_of_f32};
use replay_lines::refused;
use variable_delay::{Opened, VariableDelay};

#[derive(Clone, Copy)]
pub struct Turn {
    pub state: VariableDelay,
    pub answer: u64,
}

// Writes the answer of a reader and the number of samples it has accepted.
pub fn answered(rt: &HostRuntime, shape: Shape, turn: Turn) -> Player {
    say(rt, turn.answer, turn.state.accepted);
    Player {
        shape,
        state: turn.state,
    }
}

// O4. At a refusal by 4 or 5 the original answers 0.0 and does not advance, and so does this.
fn silent(no: u8) -> u64 {
    match no {
        4 | 5 => 0,
        _ => refused(no),
    }
}

pub fn pattern(answer: Answer) -> u64 {
    match answer {
        Answer::Sample(y) => bits_of(y),
        Answer::Refused(no) => silent(no),
    }
}

pub fn pattern_f32(answer: AnswerF32) -> u64 {
    match answer {
        AnswerF32::Sample(y) => u64::from(bits_of_f32(y)),
        AnswerF32::Refused(no) => silent(no),
    }
}

pub fn started(before: VariableDelay, opened: Opened) -> Turn {
    match opened {
        Opened::Reader(s) => Turn {
            state: s,
            answer: 0,
        },
        Opened::Refused(no) => Turn {
            state: before,
            answer: refused(no),
        },
    }
}
