// The stored samples of a file, block after block, their low byte first. Each sample of a float kind is checked,
// because one that is not finite is refused.
use outcomes::{Outcome, broken, is_well, misfit_at, well};
use sample_kind::SampleKind;
use sizes::{begun, begun_f32, times};
use system::System;
use wave_file::WaveFile;

// The number of frames in a block.
const FRAMES: usize = 4096;

pub(crate) fn copy(system: &System, file: WaveFile, fd: i32) -> Outcome {
    let frames = file.frames;
    let mut said: i64 = 0;
    for done in (0..frames).step_by(FRAMES) {
        let n = (frames - done).min(FRAMES);
        let outcome = copy_block(system, file, fd, done, n);
        if !is_well(outcome) {
            return outcome;
        }
        said = tell(system, done + n, frames, said);
    }
    well()
}

// Shows how far the run is, if standard error is a terminal.
fn tell(system: &System, done: usize, frames: usize, said: i64) -> i64 {
    let terminal = system.is_terminal();
    let second = system.second();
    progress::tell(system, b"plain", done, frames, terminal, said, second)
}

fn copy_block(system: &System, file: WaveFile, fd: i32, done: usize, n: usize) -> Outcome {
    let mut bytes = [0u8; 32768];
    let io = wave_file::read_frames(system, file, done, &mut bytes, n);
    if io != 0 {
        return broken(io);
    }
    copy_part(system, file, fd, done, &bytes, times(n, file.frame))
}

fn copy_part(
    system: &System,
    file: WaveFile,
    fd: i32,
    done: usize,
    bytes: &[u8; 32768],
    size: usize,
) -> Outcome {
    let part = begun(bytes, size);
    let looked = look_at(file, done, part);
    if !is_well(looked) {
        return looked;
    }
    if system.write_all(fd, part) {
        return well();
    }
    broken(3)
}

fn look_at(file: WaveFile, done: usize, part: &[u8]) -> Outcome {
    match file.kind {
        SampleKind::Pcm16 | SampleKind::Pcm24 => well(),
        SampleKind::Float32 => look_at_floats(file.channels, done, part),
    }
}

// Reads both channels' samples as if they were one channel's, because the check needs only their places.
fn look_at_floats(channels: u8, done: usize, part: &[u8]) -> Outcome {
    let mut floats = [0.0f32; 8192];
    let count = part.len() / 4;
    fill(part, &mut floats, count);
    look_at_samples(channels, done, &floats, count)
}

fn fill(part: &[u8], floats: &mut [f32], count: usize) {
    if count <= floats.len() {
        wav_samples::filling::fill_f32(SampleKind::Float32, 1, 0, part, &mut floats[..count]);
    }
}

fn look_at_samples(channels: u8, done: usize, floats: &[f32; 8192], count: usize) -> Outcome {
    let at = rounded_samples::first_misfit(SampleKind::Float32, begun_f32(floats, count));
    if at < count {
        return misfit_at(channels, done, at);
    }
    well()
}
