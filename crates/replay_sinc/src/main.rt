// The program that replays a stored list of the original's answers: windowed sinc tables and the readers over them
// (O5).
// A line is answered by a line, and after a table is built its elements follow, a line for each (docs/ORACLE.md has the
// letters). oracle/src/lists/sinc.rs makes the list. A trailing part of a line is ignored.
#![tactic(auto)]

mod elements; // the elements of the tables, set one by one and written
mod lines; // a line that is read, one that is written, and what is kept between
mod readers; // the reader over f64
mod readers_f32; // the reader over f32
mod tables; // tables of both widths, built
mod turns; // what a reader answers and leaves

use lines::{Player, Shape, hear};
use replay_lines::Line;
use variable_delay::VariableDelay;

fn replay(
    rt: &HostRuntime,
    before: Player,
    ring: &mut [f64],
    ring_f32: &mut [f32],
    table: &mut [f64],
    table_f32: &mut [f32],
    line: Line,
) -> Player {
    match line.letter {
        b's' | b'e' | b'n' | b'm' => tables::call(rt, before, table, table_f32, line),
        b'O' | b'P' | b'R' => readers_f32::call_f32(rt, before, ring_f32, table_f32, line),
        _ => readers::call(rt, before, ring, table, line),
    }
}

// Goes line after line. The bound is there because the language demands that a loop ends; no input is that long.
fn run(
    rt: &HostRuntime,
    ring: &mut [f64],
    ring_f32: &mut [f32],
    table: &mut [f64],
    table_f32: &mut [f32],
) {
    let mut player = Player {
        shape: Shape {
            taps: 0,
            phases: 0,
            beta: 0.0,
        },
        state: VariableDelay {
            maximum: 0,
            margin: 0,
            accepted: 0,
        },
    };
    for _ in 0..u64::MAX {
        let Some(line) = hear(rt) else {
            break;
        };
        player = replay(rt, player, ring, ring_f32, table, table_f32, line);
    }
}

// The list has rings of at most 128 places and tables of at most 512 elements.
fn main(rt: HostRuntime) {
    let mut ring = [0.0f64; 128];
    let mut ring_f32 = [0.0f32; 128];
    let mut table = [0.0f64; 512];
    let mut table_f32 = [0.0f32; 512];
    run(&rt, &mut ring, &mut ring_f32, &mut table, &mut table_f32);
}
