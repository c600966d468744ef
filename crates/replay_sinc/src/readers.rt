// The reader over f64, and a call of a reader of either width.
ghost use Rattle.std.specs.Prelude.{◌≤◌};

use crate::lines::{Player, Shape};
use crate::turns::{Turn, answered, pattern, started};
use bit_patterns::float_of;
use replay_lines::{Line, table_part};
use variable_delay::VariableDelay;

// How much of the ring's buffer the settings take. Opening brings its own settings.
fn ring_part(s: VariableDelay, opens: bool, line: Line, room: usize) -> usize
    ensures { result ≤ room }
{
    let need = if opens {
        ring::length_for(line.a as usize, line.b as usize)
    } else {
        ring::length_for(s.maximum, s.margin)
    };
    replay_lines::within(need, room)
}

// A call of a reader, with the parts of its ring and its table that the settings take.
pub fn call_by<T, F: FnOnce(&mut [T], &[T]) -> Turn>(
    rt: &HostRuntime,
    before: Player,
    opens: bool,
    ring: &mut [T],
    table: &[T],
    line: Line,
    called: F,
) -> Player
    requires { F.IsAlwaysCallable called }
{
    let shape = before.shape;
    let end = ring_part(before.state, opens, line, ring.len());
    let to = table_part(shape.taps, shape.phases, table.len());
    let turn = called(&mut ring[..end], &table[..to]);
    answered(rt, shape, turn)
}

fn process(s: VariableDelay, shape: Shape, ring: &mut [f64], table: &[f64], line: Line) -> Turn {
    let x = float_of(line.a);
    let delay = float_of(line.b);
    let p = sinc_delay::process_sample(s, ring, x, delay, table, shape.taps, shape.phases);
    Turn {
        state: p.state,
        answer: pattern(p.answer),
    }
}

// `o` opens a reader (maximum delay, margin), `p` hands it a sample (the sample, the delay), any other letter resets
// it.
fn called(s: VariableDelay, shape: Shape, ring: &mut [f64], table: &[f64], line: Line) -> Turn {
    match line.letter {
        b'o' => started(
            s,
            variable_delay::open(line.a as usize, line.b as usize, ring),
        ),
        b'p' => process(s, shape, ring, table, line),
        _ => started(s, variable_delay::reset(s, ring)),
    }
}

pub fn call(
    rt: &HostRuntime,
    before: Player,
    ring: &mut [f64],
    table: &[f64],
    line: Line,
) -> Player {
    let opens = line.letter == b'o';
    call_by(rt, before, opens, ring, table, line, |ring, table| {
        called(before.state, before.shape, ring, table, line)
    })
}
