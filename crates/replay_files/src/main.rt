// The program that replays a stored list of small and damaged WAV files (W1). A line of standard input is a file: the
// number of its bytes in four hex digits, a blank, and two digits for each byte. For each the program writes a line of
// 18 numbers: the answer of `wav::read` (the refusal number, 0 for none; the code of the kind, channels, rate, start
// and length, zeros if refused), the answer of `wav::read_wrapped`, and that of `wav::fmt_told`. If `read_wrapped`
// refuses nothing, a line with the samples follows for each channel (samples.rt). oracle/lists/files.py makes the list
// from the text of document 02. An incomplete last line is ignored.
#![tactic(auto)]

mod heard; // a file from standard input
mod samples; // a channel's samples
mod said; // numbers on standard output

use heard::hear;
use replay_lines::within;
use said::{end_of_line, number};
use sample_kind::{SampleKind, code};
use samples::channel;
use wav::{Found, Told, Wave};

fn refusal(found: Found) -> u8 {
    match found {
        Found::Wave(_) => 0,
        Found::Refused(no) => no,
    }
}

fn wave(found: Found) -> Wave {
    match found {
        Found::Wave(w) => w,
        Found::Refused(_) => Wave {
            kind: SampleKind::Pcm16,
            channels: 0,
            rate: 0,
            start: 0,
            length: 0,
        },
    }
}

fn tell(rt: &HostRuntime, found: Found) {
    let w = wave(found);
    number(rt, u64::from(refusal(found)));
    number(rt, u64::from(code(w.kind)));
    number(rt, u64::from(w.channels));
    number(rt, u64::from(w.rate));
    number(rt, w.start as u64);
    number(rt, w.length as u64);
}

fn tell_format(rt: &HostRuntime, told: Told) {
    number(rt, told.size as u64);
    number(rt, u64::from(told.tag));
    number(rt, u64::from(told.channels));
    number(rt, u64::from(told.block));
    number(rt, u64::from(told.bits));
    number(rt, told.samples as u64);
}

fn replay(rt: &HostRuntime, file: &[u8]) {
    let found = wav::read_wrapped(file);
    tell(rt, wav::read(file));
    tell(rt, found);
    tell_format(rt, wav::fmt_told(file));
    end_of_line(rt);
    let w = wave(found);
    let part = wav::part(file, w);
    for c in 0..w.channels {
        channel(rt, w.kind, w.channels, c, part);
    }
}

// Handles line after line. The bound is there because the language demands that a loop ends; no input is that long.
fn run(rt: &HostRuntime, file: &mut [u8]) {
    for _ in 0..u64::MAX {
        let Some(bytes) = hear(rt, file) else {
            break;
        };
        let n = within(bytes, file.len());
        replay(rt, &file[..n]);
    }
}

fn main(rt: HostRuntime) {
    let mut file = [0u8; 512];
    run(&rt, &mut file);
}
