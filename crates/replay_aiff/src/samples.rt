// The samples of one channel as f64, as f32 and as whole numbers of 2^-23: first the three refusal numbers, 0 for none,
// then for each frame the three as bit patterns.
use crate::said::{end_of_line, number, pattern};
use aiff_samples::filling;
use bit_patterns::{bits_of, bits_of_f32};
use replay_lines::within;
use sample_kind::{SampleKind, frame_width};

// No file of the list has more frames.
const MOST: usize = 128;

fn frames(kind: SampleKind, channels: u8, size: usize) -> usize {
    let frame = frame_width(kind, channels);
    size.checked_div(frame).unwrap_or(0)
}

pub fn channel(rt: &HostRuntime, kind: SampleKind, channels: u8, channel: u8, part: &[u8]) {
    let n = within(frames(kind, channels, part.len()), MOST);
    let mut doubles = [0.0f64; MOST];
    let mut floats = [0.0f32; MOST];
    let mut wholes = [0i32; MOST];
    number(
        rt,
        u64::from(filling::fill(kind, channels, channel, part, &mut doubles[..n])),
    );
    number(
        rt,
        u64::from(filling::fill_f32(kind, channels, channel, part, &mut floats[..n])),
    );
    number(
        rt,
        u64::from(filling::fill_whole(kind, channels, channel, part, &mut wholes[..n])),
    );
    for ((double, float), whole) in doubles.iter().zip(&floats).zip(&wholes).take(n) {
        pattern(rt, bits_of(*double), 16);
        pattern(rt, u64::from(bits_of_f32(*float)), 8);
        pattern(rt, u64::from(whole.cast_unsigned()), 8);
    }
    end_of_line(rt);
}
