// A block's samples, each channel read back at its delays, in the order in which a file has them.
use crate::running::Sides;
use imitation::Ended;
use sizes::{begun, times};
use variable_delay::VariableDelay;
use wave_file::WaveFile;

// The state after a block. If a refusal ended the block, `number` is its number, `done` the number of frames before it,
// and `channel` its channel, counted from 1.
#[derive(Clone, Copy)]
pub(crate) struct Heard {
    pub sides: Sides,
    pub number: u8,
    pub done: usize,
    pub channel: u8,
}

pub(crate) fn hear<'a>(
    file: WaveFile,
    sides: Sides,
    ring: &mut [f32],
    second: &mut [f32],
    table: &'a [f32],
    bytes: &[u8; 32768],
    n: usize,
    left: &[f64],
    right: &[f64],
    both: &mut [f32],
) -> Heard {
    let part = begun(bytes, times(n, file.frame));
    if file.channels == 2 {
        return hear_two(file, sides, ring, second, table, part, n, left, right, both);
    }
    let ended = hear_into(file, 0, part, sides.one, ring, table, both, n, left);
    let one = ended.reader;
    ended_with(Sides { one, ..sides }, ended, 1)
}

fn ended_with(sides: Sides, ended: Ended, channel: u8) -> Heard {
    Heard {
        sides,
        number: ended.refusal,
        done: ended.done,
        channel,
    }
}

// Reads both channels; their samples stand in the file in turn.
fn hear_two<'a>(
    file: WaveFile,
    sides: Sides,
    ring: &mut [f32],
    second: &mut [f32],
    table: &'a [f32],
    part: &[u8],
    n: usize,
    left: &[f64],
    right: &[f64],
    both: &mut [f32],
) -> Heard {
    let mut first = [0.0f32; 4096];
    let ended = hear_into(file, 0, part, sides.one, ring, table, &mut first, n, left);
    if ended.refusal != 0 {
        return ended_with(sides, ended, 1);
    }
    let one = ended.reader;
    let sides = Sides { one, ..sides };
    hear_other(file, sides, second, table, part, n, right, &first, both)
}

// Reads the second channel and puts its samples between those of the first.
fn hear_other<'a>(
    file: WaveFile,
    sides: Sides,
    second: &mut [f32],
    table: &'a [f32],
    part: &[u8],
    n: usize,
    right: &[f64],
    first: &[f32; 4096],
    both: &mut [f32],
) -> Heard {
    let mut other = [0.0f32; 4096];
    let ended = hear_into(
        file, 1, part, sides.two, second, table, &mut other, n, right,
    );
    woven::weave(first, &other, both);
    let two = ended.reader;
    ended_with(Sides { two, ..sides }, ended, 2)
}

// Reads one channel of a part into the first n places of `samples`.
fn hear_into<'a>(
    file: WaveFile,
    channel: u8,
    part: &[u8],
    reader: VariableDelay,
    ring: &mut [f32],
    table: &'a [f32],
    samples: &mut [f32],
    n: usize,
    delays: &[f64],
) -> Ended {
    if n <= samples.len() {
        return heard_channel::hear(
            file.kind,
            file.channels,
            channel,
            part,
            reader,
            ring,
            table,
            &mut samples[..n],
            delays,
        );
    }
    Ended {
        reader,
        done: 0,
        refusal: 2,
    }
}
