// The program that replays a stored list of the original's answers: runs of its VariableDelay (O5).
// A line of standard input is a letter and three words of sixteen hex digits: `o` opens a reader (its kernel, maximum
// delay, margin), `p` hands it a sample (the sample, the delay, 0), `r` resets it (0, 0, 0). The line that is written
// has the answer's pattern and the accepted number afterwards. oracle/src/lists/delays.rs makes the list. A trailing
// part of a line is ignored.
#![tactic(auto)]

mod calls; // a reader, and the call that a line makes

use calls::{Reader, Turn, call, part};
use replay_lines::Line;
use streams::{read_full, write_all};
use variable_delay::VariableDelay;
use word_bytes::hex16;

// The next 53 bytes, a line, if there are so many.
fn hear(rt: &HostRuntime) -> Option<Line> {
    let mut text = [0u8; 53];
    let n = read_full(rt, &mut text);
    let heard = replay_lines::line_heard(n, &text);
    if heard.whole { Some(heard.line) } else { None }
}

fn say(rt: &HostRuntime, answer: u64, accepted: u64) {
    write_all(rt, &hex16(answer));
    write_all(rt, b" ");
    write_all(rt, &hex16(accepted));
    write_all(rt, b"\n");
}

fn replay(before: Reader, ring: &mut [f64], line: Line) -> Turn {
    let end = part(before.state, line, ring.len());
    call(
        before,
        &mut ring[..end],
        line.letter,
        line.a,
        line.b,
        line.c,
    )
}

// Goes line after line. The bound is there because the language demands that a loop ends; no input is that long.
fn run(rt: &HostRuntime, ring: &mut [f64]) {
    let mut reader = Reader {
        kernel: 0,
        state: VariableDelay {
            maximum: 0,
            margin: 0,
            accepted: 0,
        },
    };
    for _ in 0..u64::MAX {
        let Some(line) = hear(rt) else {
            break;
        };
        let t = replay(reader, ring, line);
        reader = t.reader;
        say(rt, t.answer, t.reader.state.accepted);
    }
}

fn main(rt: HostRuntime) {
    let mut ring = [0.0f64; 64];
    run(&rt, &mut ring);
}
