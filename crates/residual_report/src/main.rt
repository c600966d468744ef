// The program `residual FIRST SECOND [NAME=VALUE …]`: it reports what is left when one file is subtracted from the
// other, and draws a picture of it if one is wanted.
#![tactic(auto)]

mod asking; // what the arguments ask for
mod channels; // a block, channel by channel
mod comparing; // block after block
mod drawing; // the picture
mod filling; // a channel as whole numbers
mod reporting; // the report's lines
mod sayings; // what is said of files that cannot be compared

use asked::Comparison;
use asking::{help_asked, tell_usage, to_compare};
use compared_frames::span;
use comparing::{Job, Reports};
use drawing::Drawing;
use error_lines::{misused, say_of, succeed};
use file_words::{say_unopened, say_wrapped};
use outcomes::is_well;
use sayings::{comparable, say_outcome};
use sizes::fewer;
use std::process::ExitCode;
use system::{STANDARD_OUTPUT, System};
use wave_file::{Opened, WaveFile};

fn main(rt: HostRuntime) -> ExitCode {
    let system = System::new(rt);
    if help_asked(&system) {
        tell_usage(&system, STANDARD_OUTPUT);
        return succeed();
    }
    let asked = to_compare(&system);
    let names = asked.names;
    if !names.good {
        return misused();
    }
    let mut first = [0u8; 4096];
    let n = system.arg(names.first, &mut first).unwrap_or(0);
    let mut second = [0u8; 4096];
    let m = system.arg(names.second, &mut second).unwrap_or(0);
    let mut picture = [0u8; 4096];
    let p = system.arg(asked.picture, &mut picture).unwrap_or(0);
    run(
        &system,
        asked.settings,
        &picture[..p],
        &first[..n],
        &second[..m],
    )
}

// The name of the picture stands after `picture=`.
fn run(
    system: &System,
    settings: Comparison,
    argument: &[u8],
    first: &[u8],
    second: &[u8],
) -> ExitCode {
    let at = arguments::value_at(argument);
    run_named(system, settings, &argument[at..], first, second)
}

fn run_named(
    system: &System,
    settings: Comparison,
    picture: &[u8],
    first: &[u8],
    second: &[u8],
) -> ExitCode {
    if spelling::same(picture, b"-") {
        say_of(
            system,
            b"residual",
            b"picture=-",
            b" will not do: a picture is a file's name\n",
        );
        return misused();
    }
    if compare(system, settings, picture, first, second) {
        return succeed();
    }
    ExitCode::FAILURE
}

fn compare(
    system: &System,
    settings: Comparison,
    picture: &[u8],
    first: &[u8],
    second: &[u8],
) -> bool {
    let opened = wave_file::open(system, first);
    match opened {
        Opened::File(a) => compare_with(system, settings, picture, first, second, a),
        _ => {
            say_unopened(system, b"residual", first, opened);
            false
        }
    }
}

fn compare_with(
    system: &System,
    settings: Comparison,
    picture: &[u8],
    first: &[u8],
    second: &[u8],
    a: WaveFile,
) -> bool {
    let opened = wave_file::open(system, second);
    match opened {
        Opened::File(b) => compare_both(system, settings, picture, first, second, a, b),
        _ => {
            say_unopened(system, b"residual", second, opened);
            false
        }
    }
}

fn compare_both(
    system: &System,
    settings: Comparison,
    picture: &[u8],
    first: &[u8],
    second: &[u8],
    a: WaveFile,
    b: WaveFile,
) -> bool {
    if !comparable(system, first, second, a, b, settings.channel) {
        return false;
    }
    say_wrapped(system, b"residual", first, a);
    say_wrapped(system, b"residual", second, b);
    let job = job_of(settings, a, b);
    if settings.picture {
        return draw(system, job, picture, first, second);
    }
    tell(system, job, first, second)
}

fn job_of(settings: Comparison, a: WaveFile, b: WaveFile) -> Job {
    let extent = span(
        a.frames,
        b.frames,
        settings.first_skip as usize,
        settings.second_skip as usize,
        settings.frames,
    );
    Job {
        first: a,
        second: b,
        extent,
        channel: settings.channel,
        stretches: stretches_of(settings.picture, extent.frames),
        drawn: settings.picture,
    }
}

fn stretches_of(drawn: bool, frames: usize) -> usize {
    if drawn { fewer(frames, 1000) } else { 1 }
}

fn tell(system: &System, job: Job, first: &[u8], second: &[u8]) -> bool {
    let mut peaks = [0u32; 1];
    let reports = comparing::compare(system, job, &mut peaks);
    if ended_well(system, reports, first, second) {
        return reporting::tell(system, job, reports, first, second);
    }
    false
}

fn ended_well(system: &System, reports: Reports, first: &[u8], second: &[u8]) -> bool {
    let outcome = reports.outcome;
    if is_well(outcome) {
        progress::clear(system, system.is_terminal());
        return true;
    }
    if reports.second {
        say_outcome(system, second, outcome);
        return false;
    }
    say_outcome(system, first, outcome);
    false
}

// The picture gets its name before the report is printed, so that a report never stands beside a picture that failed.
fn draw(system: &System, job: Job, picture: &[u8], first: &[u8], second: &[u8]) -> bool {
    let made = part_file::make(system, b"residual", picture);
    match made {
        Some(fd) => draw_into(system, job, picture, fd, first, second),
        None => false,
    }
}

fn draw_into(
    system: &System,
    job: Job,
    picture: &[u8],
    fd: i32,
    first: &[u8],
    second: &[u8],
) -> bool {
    let mut peaks = [0u32; 4000];
    let reports = comparing::compare(system, job, &mut peaks);
    let well = drawn(system, job, reports, picture, fd, first, second, &peaks);
    if part_file::finish(system, b"residual", picture, fd, well) {
        return reporting::tell(system, job, reports, first, second);
    }
    false
}

fn drawn(
    system: &System,
    job: Job,
    reports: Reports,
    picture: &[u8],
    fd: i32,
    first: &[u8],
    second: &[u8],
    peaks: &[u32; 4000],
) -> bool {
    if !ended_well(system, reports, first, second) {
        return false;
    }
    drawing::draw(system, picture, fd, drawing_of(job), first, second, peaks)
}

fn drawing_of(job: Job) -> Drawing {
    let extent = job.extent;
    let file = job.first;
    Drawing {
        channels: file.channels,
        channel: job.channel,
        frames: extent.frames as u64,
        rate: file.rate,
        stretches: count_of(job.stretches),
    }
}

fn count_of(stretches: usize) -> u32 {
    if stretches < 1000 {
        stretches as u32
    } else {
        1000
    }
}
