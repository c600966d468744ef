// A line of standard input, a line of standard output, which is two words of sixteen hex digits, and what is kept
// between two lines.
use replay_lines::Line;
use streams::{read_full, write_all};
use variable_delay::VariableDelay;
use word_bytes::hex16;

// The settings of the tables that are built or read next, and the reader.
#[derive(Clone, Copy)]
pub struct Player {
    pub shape: Shape,
    pub state: VariableDelay,
}

#[derive(Clone, Copy)]
pub struct Shape {
    pub taps: usize,
    pub phases: usize,
    pub beta: f64,
}

// The next 53 bytes, a line, if there are so many.
pub fn hear(rt: &HostRuntime) -> Option<Line> {
    let mut text = [0u8; 53];
    let n = read_full(rt, &mut text);
    let heard = replay_lines::line_heard(n, &text);
    if heard.whole { Some(heard.line) } else { None }
}

pub fn say(rt: &HostRuntime, answer: u64, beside: u64) {
    write_all(rt, &hex16(answer));
    write_all(rt, b" ");
    write_all(rt, &hex16(beside));
    write_all(rt, b"\n");
}
