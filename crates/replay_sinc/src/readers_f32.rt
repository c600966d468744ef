// The reader over f32: what `readers` has, over its own ring and table.
use crate::elements::single;
use crate::lines::{Player, Shape};
use crate::readers::call_by;
use crate::turns::{Turn, pattern_f32, started};
use bit_patterns::float_of;
use replay_lines::Line;
use variable_delay::VariableDelay;

fn process_f32(
    s: VariableDelay,
    shape: Shape,
    ring: &mut [f32],
    table: &[f32],
    line: Line,
) -> Turn {
    let x = single(line.a);
    let delay = float_of(line.b);
    let p = sinc_delay_f32::process_sample(s, ring, x, delay, table, shape.taps, shape.phases);
    Turn {
        state: p.state,
        answer: pattern_f32(p.answer),
    }
}

// `O`, `P` and `R` are the same for f32.
fn called_f32(s: VariableDelay, shape: Shape, ring: &mut [f32], table: &[f32], line: Line) -> Turn {
    match line.letter {
        b'O' => started(
            s,
            variable_delay_f32::open(line.a as usize, line.b as usize, ring),
        ),
        b'P' => process_f32(s, shape, ring, table, line),
        _ => started(s, variable_delay_f32::reset(s, ring)),
    }
}

pub fn call_f32(
    rt: &HostRuntime,
    before: Player,
    ring: &mut [f32],
    table: &[f32],
    line: Line,
) -> Player {
    let opens = line.letter == b'O';
    call_by(rt, before, opens, ring, table, line, |ring, table| {
        called_f32(before.state, before.shape, ring, table, line)
    })
}
