// W12. The program that replays a stored list of small and damaged AIFF files. A line of standard input is a file: the
// number of its bytes in four hex digits, a blank, and two digits for each byte. A line is written for each, of 20
// numbers: what `aiff::read` answers (the refusal's number, 0 for none; the kind's code, channels, rate, start and
// length, zeros where it is refused), what reading the same file step by step answers (turns.rt), and what
// `aiff::chunks_told` gives. If nothing is refused a line follows for each channel, with its samples (samples.rt).
// oracle/lists/aiff.py makes the list, from document 02's text. A trailing part of a line is ignored.
#![tactic(auto)]

mod heard; // a file from standard input
mod said; // numbers on standard output
mod samples; // a channel's samples
mod turns; // a file read step by step

use aiff::{Found, Sound, Told};
use heard::hear;
use replay_lines::within;
use said::{end_of_line, number};
use sample_kind::{SampleKind, code};
use samples::channel;
use turns::by_turns;

fn refusal(found: Found) -> u8 {
    match found {
        Found::Sound(_) => 0,
        Found::Refused(no) => no,
    }
}

fn sound(found: Found) -> Sound {
    match found {
        Found::Sound(f) => f,
        Found::Refused(_) => Sound {
            kind: SampleKind::Pcm16,
            channels: 0,
            rate: 0,
            start: 0,
            length: 0,
        },
    }
}

fn tell(rt: &HostRuntime, found: Found) {
    let f = sound(found);
    number(rt, u64::from(refusal(found)));
    number(rt, u64::from(code(f.kind)));
    number(rt, u64::from(f.channels));
    number(rt, u64::from(f.rate));
    number(rt, f.start as u64);
    number(rt, f.length as u64);
}

fn tell_chunks(rt: &HostRuntime, told: Told) {
    number(rt, told.comm as u64);
    number(rt, u64::from(told.channels));
    number(rt, u64::from(told.frames));
    number(rt, u64::from(told.bits));
    number(rt, u64::from(told.exponent));
    number(rt, told.digits);
    number(rt, told.ssnd as u64);
    number(rt, u64::from(told.offset));
}

fn replay(rt: &HostRuntime, file: &[u8]) {
    let found = aiff::read(file);
    tell(rt, found);
    tell(rt, by_turns(file));
    tell_chunks(rt, aiff::chunks_told(file));
    end_of_line(rt);
    let f = sound(found);
    let part = aiff::part(file, f);
    for c in 0..f.channels {
        channel(rt, f.kind, f.channels, c, part);
    }
}

// Goes line after line. The bound is there because the language demands that a loop ends; no input is that long.
fn run(rt: &HostRuntime, file: &mut [u8]) {
    for _ in 0..u64::MAX {
        let Some(bytes) = hear(rt, file) else {
            break;
        };
        let n = within(bytes, file.len());
        replay(rt, &file[..n]);
    }
}

fn main(rt: HostRuntime) {
    let mut file = [0u8; 512];
    run(&rt, &mut file);
}
