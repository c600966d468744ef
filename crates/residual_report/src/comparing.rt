// `residual` over open files: it compares two files in whole numbers of 24 bits, block after block, and notes the peaks
// of each stretch for a picture. What a report says is proved in residual, what a peak is in peaks, which frames are
// compared in compared_frames.
use crate::channels::compare_channels;
use compared_frames::{Extent, block_of, stretch_end, stretch_of};
use outcomes::{Outcome, broken, is_well, well};
use residual::Report;
use sizes::{less, plus};
use system::System;
use wave_file::{WaveFile, read_frames};

// Two files, the frames of them that are compared, and the channel, none for all. If a picture is wanted, `stretches`
// is the number of its stretches, at most 1000; otherwise it is 1.
#[derive(Clone, Copy)]
pub(crate) struct Job {
    pub first: WaveFile,
    pub second: WaveFile,
    pub extent: Extent,
    pub channel: Option<u8>,
    pub stretches: usize,
    pub drawn: bool,
}

// A report for each channel, how the run ended, and whether it was the second file that ended it.
#[derive(Clone, Copy)]
pub(crate) struct Reports {
    pub one: Report,
    pub two: Report,
    pub outcome: Outcome,
    pub second: bool,
}

// The peaks are those of the samples and then of the differences of channel 1, followed by those of channel 2, with
// 1000 places for each.
pub(crate) fn compare(system: &System, job: Job, peaks: &mut [u32]) -> Reports {
    let frames = job.extent.frames;
    let mut reports = none();
    let mut done: usize = 0;
    let mut k: usize = 0;
    let mut said: i64 = 0;
    // By hand: a block ends where its stretch does, so that where the next one begins is no step of a range.
    while done < frames {
        k = stretch_of(frames, job.stretches, k, done);
        let end = stretch_end(frames, job.stretches, plus(k, 1));
        let n = block_of(less(end, done));
        reports = block(system, job, reports, peaks, k, done, n);
        if !is_well(reports.outcome) {
            return reports;
        }
        done = plus(done, n);
        said = tell(system, done, frames, said);
    }
    reports
}

fn none() -> Reports {
    let empty = residual::empty();
    Reports {
        one: empty,
        two: empty,
        outcome: well(),
        second: false,
    }
}

// Shows how far the run is, if standard error is a terminal.
fn tell(system: &System, done: usize, frames: usize, said: i64) -> i64 {
    let terminal = system.is_terminal();
    let second = system.second();
    progress::tell(system, b"residual", done, frames, terminal, said, second)
}

// Compares n frames of both files, after `done` frames.
fn block(
    system: &System,
    job: Job,
    reports: Reports,
    peaks: &mut [u32],
    k: usize,
    done: usize,
    n: usize,
) -> Reports {
    let mut left = [0u8; 32768];
    let mut right = [0u8; 32768];
    let extent = job.extent;
    let io = read_frames(system, job.first, plus(extent.first, done), &mut left, n);
    if io != 0 {
        return Reports {
            outcome: broken(io),
            second: false,
            ..reports
        };
    }
    let io = read_frames(system, job.second, plus(extent.second, done), &mut right, n);
    if io != 0 {
        return Reports {
            outcome: broken(io),
            second: true,
            ..reports
        };
    }
    compare_channels(job, reports, peaks, k, done, n, &left, &right)
}
