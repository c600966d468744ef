// The program `imitate FROM TO [NAME=VALUE …]`: it reads FROM back at a wandering delay and writes that to TO.
#![tactic(auto)]

mod absences; // which samples read absent taps
mod asking; // what the arguments ask for
mod hearing; // a block's samples
mod running; // block after block
mod sayings; // what is said of settings and samples
mod storing; // a block's bytes

use absences::Absences;
use asked::Imitation;
use asking::{help_asked, tell_usage, to_imitate};
use error_lines::{misused, succeed};
use file_words::{say_unopened, say_wrapped};
use outcomes::{Outcome, is_well};
use running::Job;
use sayings::{say_absent, say_outcome, suits};
use sizes::times;
use std::process::ExitCode;
use system::{STANDARD_OUTPUT, System};
use wave_file::{Opened, WaveFile};
use wave_output::{can_be_written, write_header, write_pad};

// Whether everything was written, and which samples read absent taps.
#[derive(Clone, Copy)]
struct Written {
    well: bool,
    absent: Absences,
}

fn main(rt: HostRuntime) -> ExitCode {
    let system = System::new(rt);
    if help_asked(&system) {
        tell_usage(&system, STANDARD_OUTPUT);
        return succeed();
    }
    let asked = to_imitate(&system);
    let names = asked.names;
    if !names.good {
        return misused();
    }
    let mut from = [0u8; 4096];
    let n = system.arg(names.first, &mut from).unwrap_or(0);
    let mut to = [0u8; 4096];
    let m = system.arg(names.second, &mut to).unwrap_or(0);
    if imitate(&system, asked.settings, &from[..n], &to[..m]) {
        return succeed();
    }
    ExitCode::FAILURE
}

fn imitate(system: &System, settings: Imitation, from: &[u8], to: &[u8]) -> bool {
    let opened = wave_file::open(system, from);
    match opened {
        Opened::File(file) => imitate_of(system, settings, from, to, file),
        _ => {
            say_unopened(system, b"imitate", from, opened);
            false
        }
    }
}

// Everything that can be checked beforehand is checked before the file is made, so that such a refusal comes at once.
fn imitate_of(
    system: &System,
    settings: Imitation,
    from: &[u8],
    to: &[u8],
    file: WaveFile,
) -> bool {
    let kind = settings.kind.unwrap_or(file.kind);
    let count = times(file.frames, file.channels as usize);
    if !can_be_written(
        system,
        b"imitate",
        from,
        kind,
        file.channels,
        file.rate,
        count,
    ) {
        return false;
    }
    if !suits(system, settings.params, settings.delay, file.rate) {
        return false;
    }
    let made = part_file::make(system, b"imitate", to);
    match made {
        Some(fd) => {
            say_wrapped(system, b"imitate", from, file);
            let job = Job {
                file,
                kind,
                fd,
                settings,
            };
            let written = write_all(system, from, to, job, count);
            finish(system, to, fd, file.channels, written)
        }
        None => false,
    }
}

// What the samples lacked is said once the file is whole.
fn finish(system: &System, to: &[u8], fd: i32, channels: u8, written: Written) -> bool {
    let whole = part_file::finish(system, b"imitate", to, fd, written.well);
    if whole {
        say_absent(system, channels, written.absent);
    }
    whole
}

fn write_all(system: &System, from: &[u8], to: &[u8], job: Job, count: usize) -> Written {
    let file = job.file;
    if !write_header(
        system,
        b"imitate",
        to,
        job.fd,
        job.kind,
        file.channels,
        file.rate,
        count,
    ) {
        return Written {
            well: false,
            absent: absences::none_absent(),
        };
    }
    let ran = running::imitate(system, job);
    Written {
        well: ended_well(system, from, to, job, count, ran.outcome),
        absent: ran.absent,
    }
}

fn ended_well(
    system: &System,
    from: &[u8],
    to: &[u8],
    job: Job,
    count: usize,
    outcome: Outcome,
) -> bool {
    if is_well(outcome) {
        progress::clear(system, system.is_terminal());
        return write_pad(
            system,
            b"imitate",
            to,
            job.fd,
            times(count, sample_kind::width(job.kind)),
        );
    }
    say_outcome(system, from, to, outcome);
    false
}
