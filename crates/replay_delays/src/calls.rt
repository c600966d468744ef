// A reader with one of the three kernels, and the call that a line makes.
ghost use Rattle.std.specs.Prelude.{◌≤◌};

use answer::Answer;
use bit_patterns::{bits_of, float_of};
use replay_lines::{Line, refused};
use variable_delay::{Opened, Processed, VariableDelay};

// Kernel 0 is CubicFarrow, 1 is Farrow8, and any other number is Lagrange with that many taps.
#[derive(Clone, Copy)]
pub struct Reader {
    pub kernel: u64,
    pub state: VariableDelay,
}

#[derive(Clone, Copy)]
pub struct Turn {
    pub reader: Reader,
    pub answer: u64,
}

// O4. At a refusal by 4 or 5 the original answers 0.0 and does not advance, and so does this.
fn silent(no: u8) -> u64 {
    match no {
        4 | 5 => 0,
        _ => refused(no),
    }
}

fn pattern(answer: Answer) -> u64 {
    match answer {
        Answer::Sample(y) => bits_of(y),
        Answer::Refused(no) => silent(no),
    }
}

fn started(before: Reader, kernel: u64, opened: Opened) -> Turn {
    match opened {
        Opened::Reader(state) => Turn {
            reader: Reader { kernel, state },
            answer: 0,
        },
        Opened::Refused(no) => Turn {
            reader: before,
            answer: silent(no),
        },
    }
}

fn processed(kernel: u64, s: VariableDelay, ring: &mut [f64], x: f64, delay: f64) -> Processed {
    match kernel {
        0 => cubic_delay::process_sample(s, ring, x, delay),
        1 => farrow8_delay::process_sample(s, ring, x, delay),
        _ => lagrange_delay::process_sample(s, ring, x, delay, kernel),
    }
}

fn process(before: Reader, ring: &mut [f64], x: f64, delay: f64) -> Turn {
    let p = processed(before.kernel, before.state, ring, x, delay);
    Turn {
        reader: Reader {
            kernel: before.kernel,
            state: p.state,
        },
        answer: pattern(p.answer),
    }
}

pub fn call(before: Reader, ring: &mut [f64], letter: u8, a: u64, b: u64, c: u64) -> Turn {
    match letter {
        b'o' => started(
            before,
            a,
            variable_delay::open(b as usize, c as usize, ring),
        ),
        b'p' => process(before, ring, float_of(a), float_of(b)),
        b'r' => started(
            before,
            before.kernel,
            variable_delay::reset(before.state, ring),
        ),
        _ => Turn {
            reader: before,
            answer: refused(0),
        },
    }
}

// How much of the ring the settings take. The line `o` brings its own settings, the others use those of the state.
pub fn part(before: VariableDelay, line: Line, room: usize) -> usize
    ensures { result ≤ room }
{
    let need = if line.letter == b'o' {
        ring::length_for(line.b as usize, line.c as usize)
    } else {
        ring::length_for(before.maximum, before.margin)
    };
    replay_lines::within(need, room)
}
