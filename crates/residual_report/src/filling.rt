// One channel of a part as whole numbers of 24 bits: PCM is taken as it is, floats are rounded as they would be stored.
use rounded_samples::{first_misfit, round_off};
use sample_kind::SampleKind;
use sizes::begun_f32;
use wav_samples::filling::{fill_f32, fill_whole};
use wave_file::WaveFile;

// Fills the first n numbers, and gives n, or the place of the first sample that does not fit (15).
pub(crate) fn fill(file: WaveFile, channel: u8, part: &[u8], out: &mut [i32], n: usize) -> usize {
    if n <= out.len() {
        return fill_all(file.kind, file.channels, channel, part, &mut out[..n]);
    }
    0
}

fn fill_all(kind: SampleKind, channels: u8, channel: u8, part: &[u8], out: &mut [i32]) -> usize {
    match kind {
        SampleKind::Pcm16 | SampleKind::Pcm24 => fill_pcm(kind, channels, channel, part, out),
        SampleKind::Float32 => fill_floats(channels, channel, part, out),
    }
}

fn fill_pcm(kind: SampleKind, channels: u8, channel: u8, part: &[u8], out: &mut [i32]) -> usize {
    if fill_whole(kind, channels, channel, part, out) == 0 {
        return out.len();
    }
    0
}

fn fill_floats(channels: u8, channel: u8, part: &[u8], out: &mut [i32]) -> usize {
    let mut floats = [0.0f32; 4096];
    let n = out.len();
    fill_begun(channels, channel, part, &mut floats, n);
    round_begun(&floats, out, n)
}

fn fill_begun(channels: u8, channel: u8, part: &[u8], floats: &mut [f32], n: usize) {
    if n <= floats.len() {
        fill_f32(
            SampleKind::Float32,
            channels,
            channel,
            part,
            &mut floats[..n],
        );
    }
}

fn round_begun(floats: &[f32; 4096], out: &mut [i32], n: usize) -> usize {
    let samples = begun_f32(floats, n);
    round_off(samples, out);
    first_misfit(SampleKind::Pcm24, samples)
}
