// The program `look FILE …`: it says what each recording holds, or why it is refused and what to do. A refused file
// does not keep the program from looking at the others.
#![tactic(auto)]

use error_lines::{misused, say_failed, succeed};
use sizes::begun;
use std::process::ExitCode;
use system::{STANDARD_ERROR, STANDARD_OUTPUT, System};
use text::put;
use wave_file::{Opened, WaveFile};
use words_asked::say_too_long;

fn main(rt: HostRuntime) -> ExitCode {
    let system = System::new(rt);
    let count = system.arg_count();
    if help_asked(&system) {
        tell_usage(&system, STANDARD_OUTPUT);
        return succeed();
    }
    if count < 2 {
        tell_usage(&system, STANDARD_ERROR);
        return misused();
    }
    if look(&system, count) {
        return succeed();
    }
    ExitCode::FAILURE
}

fn help_asked(system: &System) -> bool {
    let mut words = [0u8; 4096];
    let n = system.arg(1, &mut words).unwrap_or(0);
    words_asked::is_help(&words[..n])
}

fn tell_usage(system: &System, fd: i32) {
    system.write_all(
        fd,
        b"usage: ./run look FILE ... (./run --help tells more)\n",
    );
}

// Writes a line for each file, in order, and answers whether all of them were read.
fn look(system: &System, count: usize) -> bool {
    let mut well = true;
    for i in 1..count {
        if !look_at(system, i) {
            well = false;
        }
    }
    well
}

fn look_at(system: &System, i: usize) -> bool {
    let mut name = [0u8; 4096];
    let Some(n) = system.arg(i, &mut name) else {
        say_too_long(system, b"look");
        return false;
    };
    look_into(system, &name[..n])
}

fn look_into(system: &System, name: &[u8]) -> bool {
    let opened = wave_file::open(system, name);
    match opened {
        Opened::File(file) => {
            system.close(file.fd);
            tell(system, name, file)
        }
        _ => {
            file_words::say_unopened(system, b"look", name, opened);
            false
        }
    }
}

fn tell(system: &System, name: &[u8], file: WaveFile) -> bool {
    let mut line = [0u8; 4400];
    let at = put(&mut line, 0, name);
    let at = put(&mut line, at, b": ");
    let at = layout_text::put_layout(&mut line, at, file.layout);
    let at = report_lines::put_looked(
        &mut line,
        at,
        file.kind,
        file.channels,
        file.rate,
        file.frames as u64,
        file.wrapped,
    );
    if system.write_all(STANDARD_OUTPUT, begun(&line, at)) {
        return true;
    }
    say_failed(system, b"look", b"standard output");
    false
}
