// The program `render`: reads binary32 samples, low byte first, and writes one for each, read at a wandering delay
// (X2).
// What is written is proved in `render_start`, `render_samples` and `render_blocks`.
#![tactic(auto)]

use render_samples::Rendering;
use render_start::Opened;
use std::process::ExitCode;
use streams::{can_be_read, read_full, write_all, write_error};

// 2048 samples, so that only the last block has a trailing part.
const BLOCK: usize = 8192;

#[derive(Drop)]
struct Turn {
    state: Rendering,
    more: bool,
    well: bool,
}

// Whether a block of n bytes was written and, if it is the last, whether all of standard input was read. What failed is
// reported on standard error.
fn went_well(rt: &HostRuntime, n: usize, written: bool, spare: &mut [u8]) -> bool {
    if !written {
        write_error(rt, b"render: standard output takes no more\n");
        return false;
    }
    if n < BLOCK {
        if !can_be_read(rt, spare) {
            write_error(rt, b"render: standard input cannot be read\n");
            return false;
        }
    }
    true
}

// Reads one block, renders it in place and writes it.
fn block<'a>(rt: &HostRuntime, state: Rendering, ring: &mut [f32], table: &'a [f32]) -> Turn {
    let mut samples = [0u8; BLOCK];
    let n = read_full(rt, &mut samples);
    let r = render_blocks::render_block(state, ring, table, &mut samples[..n]);
    let m = r.length;
    let written = write_all(rt, &samples[..m]);
    let well = went_well(rt, n, written, &mut samples);
    let after = r.state;
    Turn {
        state: after,
        more: well && n == BLOCK,
        well: well,
    }
}

// Goes block after block, and tells whether all went well. The loop counts down from the largest u64, because the
// language demands that it ends; no input is that long.
fn run<'a>(rt: &HostRuntime, start: Rendering, ring: &mut [f32], table: &'a [f32]) -> bool {
    let mut state = start;
    let mut more = true;
    let mut well = true;
    let mut turns = u64::MAX;
    while turns > 0 && more {
        let t = block(rt, state, ring, table);
        state = t.state;
        more = t.more;
        well = t.well;
        turns -= 1;
    }
    well
}

// Ends with the status 0 where all went well, and else with 1.
fn main(rt: HostRuntime) -> ExitCode {
    let mut ring = [0.0f32; 1024];
    let mut table = [0.0f32; 2080];
    let Opened::Started(start) = render_start::open(&mut ring, &mut table) else {
        return ExitCode::FAILURE;
    };
    if run(&rt, start, &mut ring, &table) {
        return ExitCode::SUCCESS;
    }
    ExitCode::FAILURE
}
