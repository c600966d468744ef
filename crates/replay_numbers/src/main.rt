// The program that replays the stored lists of the number functions.
// A line of standard input is a function's letter and three words of sixteen hex digits, a b c. The line that is
// written has the function's answers at (a, b, c), at (b, c, a) and at (c, a, b), of which it takes as many words as it
// needs, and `?` for each where no function has the letter. oracle/lists/numbers.py makes the lists, in exact
// arithmetic. A trailing part of a line is ignored.
#![tactic(auto)]

mod answers; // the function that a letter names

use answers::answer;
use replay_lines::Line;
use streams::{read_full, write_all};
use word_bytes::hex16;

// The next 53 bytes, a line, if there are so many.
fn hear(rt: &HostRuntime) -> Option<Line> {
    let mut text = [0u8; 53];
    let n = read_full(rt, &mut text);
    let heard = replay_lines::line_heard(n, &text);
    if heard.whole { Some(heard.line) } else { None }
}

fn say(rt: &HostRuntime, reply: Option<u64>) {
    match reply {
        Some(n) => write_all(rt, &hex16(n)),
        None => write_all(rt, b"?"),
    };
}

fn replay(rt: &HostRuntime, line: Line) {
    say(rt, answer(line.letter, line.a, line.b, line.c));
    write_all(rt, b" ");
    say(rt, answer(line.letter, line.b, line.c, line.a));
    write_all(rt, b" ");
    say(rt, answer(line.letter, line.c, line.a, line.b));
    write_all(rt, b"\n");
}

// Goes line after line. The bound is there because the language demands that a loop ends; no input is that long.
fn main(rt: HostRuntime) {
    for _ in 0..u64::MAX {
        let Some(line) = hear(&rt) else {
            break;
        };
        replay(&rt, line);
    }
}
