// The program `plain FROM TO`: it writes the same stored samples anew as plain WAVE, as RIFF or, past four gigabytes,
// RF64.
#![tactic(auto)]

mod asking; // what the arguments ask for
mod copying; // block after block

use asking::{help_asked, tell_usage, to_copy};
use error_lines::{misused, succeed};
use file_words::{say_place, say_unopened, say_unread, say_wrapped};
use outcomes::{Outcome, is_well};
use sizes::times;
use std::process::ExitCode;
use system::{STANDARD_OUTPUT, System};
use wave_file::{Opened, WaveFile};
use wave_output::{can_be_written, write_header, write_pad};

fn main(rt: HostRuntime) -> ExitCode {
    let system = System::new(rt);
    if help_asked(&system) {
        tell_usage(&system, STANDARD_OUTPUT);
        return succeed();
    }
    let names = to_copy(&system);
    if !names.good {
        return misused();
    }
    let mut from = [0u8; 4096];
    let n = system.arg(names.first, &mut from).unwrap_or(0);
    let mut to = [0u8; 4096];
    let m = system.arg(names.second, &mut to).unwrap_or(0);
    if plain(&system, &from[..n], &to[..m]) {
        return succeed();
    }
    ExitCode::FAILURE
}

fn plain(system: &System, from: &[u8], to: &[u8]) -> bool {
    let opened = wave_file::open(system, from);
    match opened {
        Opened::File(file) => plain_of(system, from, to, file),
        _ => {
            say_unopened(system, b"plain", from, opened);
            false
        }
    }
}

// Everything that can be checked beforehand is checked before the file is made, so that such a refusal comes at once.
fn plain_of(system: &System, from: &[u8], to: &[u8], file: WaveFile) -> bool {
    let count = times(file.frames, file.channels as usize);
    if !can_be_written(
        system,
        b"plain",
        from,
        file.kind,
        file.channels,
        file.rate,
        count,
    ) {
        return false;
    }
    let made = part_file::make(system, b"plain", to);
    match made {
        Some(fd) => {
            say_wrapped(system, b"plain", from, file);
            let well = write_plain(system, from, to, file, fd, count);
            part_file::finish(system, b"plain", to, fd, well)
        }
        None => false,
    }
}

fn write_plain(
    system: &System,
    from: &[u8],
    to: &[u8],
    file: WaveFile,
    fd: i32,
    count: usize,
) -> bool {
    if !write_header(
        system,
        b"plain",
        to,
        fd,
        file.kind,
        file.channels,
        file.rate,
        count,
    ) {
        return false;
    }
    let outcome = copying::copy(system, file, fd);
    if is_well(outcome) {
        progress::clear(system, system.is_terminal());
        return write_pad(system, b"plain", to, fd, times(file.frames, file.frame));
    }
    say_outcome(system, from, to, outcome);
    false
}

fn say_outcome(system: &System, from: &[u8], to: &[u8], outcome: Outcome) {
    if outcome.io == 3 {
        part_file::say_unwritten(system, b"plain", to);
        return;
    }
    if outcome.io != 0 {
        say_unread(system, b"plain", from, outcome.io);
        return;
    }
    say_place(
        system,
        b"plain",
        from,
        outcome.number,
        outcome.frame,
        outcome.channel,
        b" is not a number or infinite: mend it in an audio editor first\n",
    );
}
