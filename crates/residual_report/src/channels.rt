// A block of both files, channel by channel: the report is carried on, and the peaks of the block's stretch are raised.
use crate::comparing::{Job, Reports};
use crate::filling::fill;
use outcomes::{Outcome, is_well, refused_at, well};
use peaks::{largest, raise};
use residual::{Compared, Report};
use sizes::{begun, begun_i32, plus, times};

#[derive(Clone, Copy)]
pub(crate) struct Carried {
    pub report: Report,
    pub outcome: Outcome,
    pub second: bool,
}

pub(crate) fn compare_channels(
    job: Job,
    reports: Reports,
    peaks: &mut [u32],
    k: usize,
    done: usize,
    n: usize,
    left: &[u8; 32768],
    right: &[u8; 32768],
) -> Reports {
    let one = begun(left, times(n, job.first.frame));
    let two = begun(right, times(n, job.second.frame));
    compare_parts(job, reports, peaks, k, done, n, one, two)
}

fn compare_parts(
    job: Job,
    reports: Reports,
    peaks: &mut [u32],
    k: usize,
    done: usize,
    n: usize,
    one: &[u8],
    two: &[u8],
) -> Reports {
    let half = compare_first(job, reports, peaks, k, done, n, one, two);
    compare_rest(job, half, peaks, plus(k, 2000), done, n, one, two)
}

// Compares the second channel, if there is one, if it is to be compared, and if the first one ended well.
fn compare_rest(
    job: Job,
    half: Reports,
    peaks: &mut [u32],
    k: usize,
    done: usize,
    n: usize,
    one: &[u8],
    two: &[u8],
) -> Reports {
    if !is_well(half.outcome) || job.first.channels != 2 || job.channel == Some(1) {
        return half;
    }
    compare_second(job, half, peaks, k, done, n, one, two)
}

fn compare_first(
    job: Job,
    reports: Reports,
    peaks: &mut [u32],
    k: usize,
    done: usize,
    n: usize,
    one: &[u8],
    two: &[u8],
) -> Reports {
    if job.channel == Some(2) {
        return reports;
    }
    let c = compare_channel(job, 0, reports.one, peaks, k, done, n, one, two);
    Reports {
        one: c.report,
        two: reports.two,
        outcome: c.outcome,
        second: c.second,
    }
}

fn compare_second(
    job: Job,
    reports: Reports,
    peaks: &mut [u32],
    k: usize,
    done: usize,
    n: usize,
    one: &[u8],
    two: &[u8],
) -> Reports {
    let c = compare_channel(job, 1, reports.two, peaks, k, done, n, one, two);
    Reports {
        one: reports.one,
        two: c.report,
        outcome: c.outcome,
        second: c.second,
    }
}

// Compares one channel, counted from 0.
fn compare_channel(
    job: Job,
    channel: u8,
    report: Report,
    peaks: &mut [u32],
    k: usize,
    done: usize,
    n: usize,
    left: &[u8],
    right: &[u8],
) -> Carried {
    let mut one = [0i32; 4096];
    let mut two = [0i32; 4096];
    let extent = job.extent;
    let at = fill(job.first, channel, left, &mut one, n);
    if at < n {
        return misfit(report, plus(plus(extent.first, done), at), channel, false);
    }
    let at = fill(job.second, channel, right, &mut two, n);
    if at < n {
        return misfit(report, plus(plus(extent.second, done), at), channel, true);
    }
    carry(job.drawn, report, peaks, k, &one, &two, n)
}

fn misfit(report: Report, frame: usize, channel: u8, second: bool) -> Carried {
    let outcome = refused_at(15, frame, if channel == 0 { 1 } else { 2 });
    Carried {
        report,
        outcome,
        second,
    }
}

fn carry(
    drawn: bool,
    report: Report,
    peaks: &mut [u32],
    k: usize,
    one: &[i32; 4096],
    two: &[i32; 4096],
    n: usize,
) -> Carried {
    let a = begun_i32(one, n);
    let b = begun_i32(two, n);
    if drawn {
        return note(report, peaks, k, a, b);
    }
    carry_on(report, a, b)
}

fn carry_on(before: Report, a: &[i32], b: &[i32]) -> Carried {
    match residual::compare(before, a, b) {
        Compared::Carried(report) => Carried {
            report,
            outcome: well(),
            second: false,
        },
        Compared::Refused(number) => Carried {
            report: before,
            outcome: refused_at(number, 0, 1),
            second: false,
        },
    }
}

// Carries the report on and raises the peaks of stretch k, which the picture shows: the largest sample, which is the
// largest difference from silence, and the largest difference.
fn note(report: Report, peaks: &mut [u32], k: usize, a: &[i32], b: &[i32]) -> Carried {
    let silence = [0i32; 4096];
    let none = begun_i32(&silence, a.len());
    raise(peaks, k, largest(a, none));
    raise(peaks, k, largest(b, none));
    raise(peaks, plus(k, 1000), largest(a, b));
    carry_on(report, a, b)
}
