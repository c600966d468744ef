// The program that replays a stored list of the original's answers about the bank and the change of quality (O5). A
// line of standard input is a letter and three words of sixteen hex digits, and the line that is written has two words.
// `s` and `c` are about a bank's sets and the choice among them (T3, T4); `o`, `q` and `r` are about a change of
// quality (Q1, Q2), which `b` opens by the second rule (W9); `p` and `d` are about a slice and Draft's reading of it.
// oracle/src/lists/bank.rs makes the list. A trailing part of a line is ignored.
#![tactic(auto)]

mod quality; // a change of quality, and its two words
mod sets; // a bank's sets, and the choice's two words
mod slice; // a slice of samples, and Draft's reading of it

use bit_patterns::float_of;
use quality_mode::QualityMode;
use replay_lines::Line;
use returning_fade::{Direction, Rule, RuledFade};
use streams::{read_full, write_all};
use word_bytes::hex16;

// The two words that answer a line.
#[derive(Clone, Copy)]
struct Words {
    first: u64,
    second: u64,
}

// The state of the change of quality after a line, and the answer.
#[derive(Clone, Copy)]
struct Turn {
    fade: RuledFade,
    words: Words,
}

// The words for a refusal, which look like no answer of the original.
fn refused(no: u8) -> Words {
    Words {
        first: replay_lines::refused(no),
        second: 0,
    }
}

// Packs three small numbers into one word, two hex digits each.
fn packed(a: u8, b: u8, c: u8) -> u64 {
    u64::from(u32::from_be_bytes([0, a, b, c]))
}

fn answer(source: &mut [f32], letter: u8, a: u64, b: u64, c: u64) -> Words {
    match letter {
        b's' => sets::rate(float_of(a), b),
        b'c' => sets::choice(float_of(a), float_of(b)),
        b'p' => slice::put(source, a, (b % 0x1_0000_0000) as u32),
        b'd' => slice::draft(source, a, float_of(b), c),
        _ => refused(0),
    }
}

fn call(before: RuledFade, source: &mut [f32], letter: u8, a: u64, b: u64, c: u64) -> Turn {
    match letter {
        b'o' => quality::open(before, Rule::Ported, a, (b % 0x1_0000_0000) as u32),
        b'b' => quality::open(before, Rule::Returning, a, (b % 0x1_0000_0000) as u32),
        b'q' => quality::step(before, a),
        b'r' => quality::reset(before),
        _ => Turn {
            fade: before,
            words: answer(source, letter, a, b, c),
        },
    }
}

// The next 53 bytes, which are a line, if there are that many.
fn hear(rt: &HostRuntime) -> Option<Line> {
    let mut text = [0u8; 53];
    let n = read_full(rt, &mut text);
    let heard = replay_lines::line_heard(n, &text);
    if heard.whole { Some(heard.line) } else { None }
}

fn say(rt: &HostRuntime, words: Words) {
    write_all(rt, &hex16(words.first));
    write_all(rt, b" ");
    write_all(rt, &hex16(words.second));
    write_all(rt, b"\n");
}

// Answers line after line. The bound is there because the language demands that a loop ends; no input is that long.
fn run(rt: &HostRuntime, source: &mut [f32]) {
    let mut fade = RuledFade {
        rule: Rule::Ported,
        direction: Direction::Onwards,
        fade: quality_fade::open(QualityMode::Draft, 0),
    };
    for _ in 0..u64::MAX {
        let Some(line) = hear(rt) else {
            break;
        };
        let t = call(fade, source, line.letter, line.a, line.b, line.c);
        fade = t.fade;
        say(rt, t.words);
    }
}

fn main(rt: HostRuntime) {
    let mut source = [0.0f32; 16];
    run(&rt, &mut source);
}
