// W10. The program that replays a stored list of headers of RIFF, RF64 and BW64 files, whole and damaged. A line of
// standard input is a header: the length of the file in sixteen hex digits, a blank, the number of lent bytes in four,
// a blank, and two digits for each byte. For each the program writes a line of 19 numbers: the answer of
// `long_wav::needs`, that of `long_wav::read_header` (the refusal number, 0 for none; the code of the kind, channels,
// rate, start and length, zeros if refused), that of `read_header_wrapped`, and the same read step by step (turns.rt),
// zeros after a refusal by 1 or 2. oracle/lists/headers.py makes the list from the text of document 02. An incomplete
// last line is ignored.
#![tactic(auto)]

mod heard; // a header from standard input
mod said; // numbers on standard output
mod turns; // a header step by step

use heard::hear;
use long_wav::{needs, read_header, read_header_wrapped};
use replay_lines::within;
use said::{end_of_line, number};
use sample_kind::{SampleKind, code};
use turns::by_turns;
use wav::{Found, Wave};

fn refusal(found: Found) -> u8 {
    match found {
        Found::Wave(_) => 0,
        Found::Refused(no) => no,
    }
}

fn wave(found: Found) -> Wave {
    match found {
        Found::Wave(w) => w,
        Found::Refused(_) => Wave {
            kind: SampleKind::Pcm16,
            channels: 0,
            rate: 0,
            start: 0,
            length: 0,
        },
    }
}

fn tell(rt: &HostRuntime, found: Found) {
    let w = wave(found);
    number(rt, u64::from(refusal(found)));
    number(rt, u64::from(code(w.kind)));
    number(rt, u64::from(w.channels));
    number(rt, u64::from(w.rate));
    number(rt, w.start as u64);
    number(rt, w.length as u64);
}

fn replay(rt: &HostRuntime, prefix: &[u8], length: usize) {
    number(rt, needs(prefix, length) as u64);
    tell(rt, read_header(prefix, length));
    let found = read_header_wrapped(prefix, length);
    tell(rt, found);
    if at_hand(refusal(found)) {
        tell(rt, by_turns(prefix, length));
    } else {
        tell(rt, Found::Refused(0));
    }
    end_of_line(rt);
}

// Whether the header is refused neither by 1 nor by 2. Step by step it cannot be seen that more bytes are lent than the
// file has, and bytes that are missing would count as zeros.
fn at_hand(no: u8) -> bool {
    no != 1 && no != 2
}

// Handles line after line. The bound is there because the language demands that a loop ends; no input is that long.
fn run(rt: &HostRuntime, prefix: &mut [u8]) {
    for _ in 0..u64::MAX {
        let Some(heard) = hear(rt, prefix) else {
            break;
        };
        let n = within(heard.bytes, prefix.len());
        replay(rt, &prefix[..n], heard.length);
    }
}

fn main(rt: HostRuntime) {
    let mut prefix = [0u8; 512];
    run(&rt, &mut prefix);
}
