// The program `trace`: reads binary64 samples, low byte first, and writes a line for each (X1).
// The samples go to the cubic reader with a ring of 8 and the delay 1.5. What the lines are is proved in `trace_lines`.
#![tactic(auto)]

use std::process::ExitCode;
use streams::{can_be_read, read_full, write_all, write_error};
use variable_delay::{Opened, VariableDelay};

// 1024 samples, so that only the last block has a trailing part.
const BLOCK: usize = 8192;

// What failed has been reported on standard error.
#[derive(Clone, Copy)]
struct Failed;

// Reads one block, writes its lines, and gives the state after it, or none after the last block. With 50 bytes for each
// sample no line is cut off (trace_lines, proofs/NothingCutOff.antt).
fn block(
    rt: &HostRuntime,
    state: VariableDelay,
    ring: &mut [f64],
) -> Result<Option<VariableDelay>, Failed> {
    let mut samples = [0u8; BLOCK];
    let mut lines = [0u8; 51200];
    let n = read_full(rt, &mut samples);
    let t = trace_lines::put_lines(state, ring, &samples[..n], &mut lines);
    if !write_all(rt, &lines[..t.length]) {
        write_error(rt, b"trace: standard output takes no more\n");
        return Err(Failed);
    }
    if n == BLOCK {
        return Ok(Some(t.state));
    }
    if !can_be_read(rt, &mut samples) {
        write_error(rt, b"trace: standard input cannot be read\n");
        return Err(Failed);
    }
    Ok(None)
}

// Goes block after block. The bound is there because the language demands that a loop ends; no input is that long.
fn run(rt: &HostRuntime, start: VariableDelay, ring: &mut [f64]) -> Result<(), Failed> {
    let mut state = start;
    for _ in 0..u64::MAX {
        let Some(after) = block(rt, state, ring)? else {
            break;
        };
        state = after;
    }
    Ok(())
}

// Ends with the status 0 where all went well, and else with 1.
fn main(rt: HostRuntime) -> ExitCode {
    let mut ring = [0.0f64; 8];
    let Opened::Reader(start) = variable_delay::open(0, 0, &mut ring) else {
        return ExitCode::FAILURE;
    };
    match run(&rt, start, &mut ring) {
        Ok(()) => ExitCode::SUCCESS,
        Err(Failed) => ExitCode::FAILURE,
    }
}
