// Stores a block's samples as a kind and writes them, or says which sample does not fit the kind.
use outcomes::{Outcome, broken, misfit_at, well};
use sample_kind::{SampleKind, frame_width};
use sizes::{begun_f32, times};
use system::System;

pub(crate) fn store(
    system: &System,
    fd: i32,
    kind: SampleKind,
    channels: u8,
    both: &[f32; 8192],
    bytes: &mut [u8],
    done: usize,
    n: usize,
) -> Outcome {
    let samples = begun_f32(both, times(n, channels as usize));
    let size = times(n, frame_width(kind, channels));
    if size <= bytes.len() {
        return store_into(
            system,
            fd,
            kind,
            channels,
            samples,
            &mut bytes[..size],
            done,
        );
    }
    broken(3)
}

fn store_into(
    system: &System,
    fd: i32,
    kind: SampleKind,
    channels: u8,
    samples: &[f32],
    bytes: &mut [u8],
    done: usize,
) -> Outcome {
    if wav_store::store_f32(kind, samples, bytes) == 0 {
        return write(system, fd, bytes);
    }
    misfit_at(channels, done, rounded_samples::first_misfit(kind, samples))
}

fn write(system: &System, fd: i32, bytes: &[u8]) -> Outcome {
    if system.write_all(fd, bytes) {
        return well();
    }
    broken(3)
}
