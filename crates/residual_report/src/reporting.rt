// The lines of a residual's report, on standard output.
use crate::comparing::{Job, Reports};
use residual::Report;
use sizes::begun;
use system::{STANDARD_OUTPUT, System};
use text::put;
use wave_file::WaveFile;

fn write(system: &System, line: &[u8]) -> bool {
    part_file::write(system, b"residual", b"-", STANDARD_OUTPUT, line)
}

pub(crate) fn tell(
    system: &System,
    job: Job,
    reports: Reports,
    first: &[u8],
    second: &[u8],
) -> bool {
    let extent = job.extent;
    if !tell_file(system, b"first: ", first, job.first) {
        return false;
    }
    if !tell_file(system, b"second: ", second, job.second) {
        return false;
    }
    if !tell_compared(system, extent.first, extent.second) {
        return false;
    }
    if !tell_channels(system, job, reports) {
        return false;
    }
    tell_left_over(system, extent.first_left, extent.second_left)
}

// An example of such a line is `first: PCM of 24 bits, 1 channel, 48000 Hz, 480000 frames: A.wav`.
fn tell_file(system: &System, which: &[u8], name: &[u8], file: WaveFile) -> bool {
    let mut line = [0u8; 4400];
    let at = put(&mut line, 0, which);
    let at = report_lines::put_file(
        &mut line,
        at,
        file.kind,
        file.channels,
        file.rate,
        file.frames as u64,
    );
    let at = put(&mut line, at, b": ");
    let at = put(&mut line, at, name);
    let at = put(&mut line, at, b"\n");
    write(system, begun(&line, at))
}

fn tell_compared(system: &System, first: usize, second: usize) -> bool {
    let mut line = [0u8; 128];
    let at = report_lines::put_compared(&mut line, 0, first as u64, second as u64);
    write(system, begun(&line, at))
}

fn tell_channels(system: &System, job: Job, reports: Reports) -> bool {
    if job.channel != Some(2) && !tell_channel(system, 1, reports.one) {
        return false;
    }
    if job.first.channels == 2 && job.channel != Some(1) {
        return tell_channel(system, 2, reports.two);
    }
    true
}

fn tell_channel(system: &System, channel: u8, report: Report) -> bool {
    let mut line = [0u8; 256];
    let level = decibels::tenths(report.number, report.high, report.low);
    let at = report_lines::put_channel(&mut line, 0, channel, report, level);
    write(system, begun(&line, at))
}

fn tell_left_over(system: &System, first: usize, second: usize) -> bool {
    let mut line = [0u8; 128];
    let at = report_lines::put_left_over(&mut line, 0, first as u64, second as u64);
    let at = put(&mut line, at, b"end\n");
    write(system, begun(&line, at))
}
