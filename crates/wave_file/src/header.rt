// The header of an open file, read step by step: what file_turns says of the bytes that were read, or that reading
// failed.
ghost use Rattle.std.specs.Prelude.{◌≡◌, ◌≤◌};
ghost use Rattle.wave_file.specs.Opening.{Opens, opened_as, refused_by, file_of};
ghost use Rattle.wave_file.specs.Inside.{Breaks, Turns, Walks, Finds};

use crate::reading::{read_at, read_begun};
use crate::{Opened, Refused, WaveFile};
use file_layout::{Layout, layout_of};
use file_turns::Told;
use riff_chunks::{Walked, Walking};
use sizes::{begun, fewer, quotient};
use system::System;
use wav::{Found, Wave};

// How many of the file's first bytes are read as its opening. This is enough for a `ds64` with a table of 337 sizes; a
// longer table is refused by 2.
const OPENING: usize = 4096;

// A walk over the chunks that reached its end, or that failed with this answer of `read_at`.
#[derive(Drop)]
pub enum Walk {
    Done(Walked),
    Broken(u8),
}

#[derive(Drop)]
pub enum Turned {
    Walking(Walking),
    Broken(u8),
}

// Reading fails on a folder, whose length may be reported as 0 like that of an empty file, so it comes first.
pub(crate) fn look_into(system: &System, fd: i32) -> Opened
    ensures { Opens result }
{
    let mut opening = [0u8; OPENING];
    let Some(n) = system.read_at(fd, &mut opening, 0) else {
        return Opened::Unread;
    };
    let Some(length) = system.length(fd) else {
        return Opened::Unread;
    };
    if length == 0 {
        return Opened::Empty;
    }
    look_behind(system, fd, &opening[..n], size_of(length))
}

fn size_of(length: u64) -> usize {
    length as usize
}

fn look_behind(system: &System, fd: i32, opening: &[u8], length: usize) -> Opened
    ensures { Opens result }
{
    if opening.len() != fewer(length, OPENING) {
        return Opened::Shorter;
    }
    let layout = layout_of(opening);
    let start = file_turns::begin(layout, opening, length);
    if start.refusal != 0 {
        return Opened::Refused(refusal(start.refusal, file_turns::told_of(layout, b"")));
    }
    let walk = walk_all(system, fd, layout, opening, start.end);
    match walk {
        Walk::Done(walked) => find(system, fd, layout, start.end, walked),
        Walk::Broken(number) => broken(number),
    }
}

fn broken(number: u8) -> Opened
    ensures { Breaks result }
{
    if number == 1 {
        Opened::Unread
    } else {
        Opened::Shorter
    }
}

fn refusal(number: u8, told: Told) -> Refused
    ensures { result ≡ refused_by number told }
{
    Refused {
        number: number,
        tag: told.tag,
        channels: told.channels,
        block: told.block,
        bits: told.bits,
    }
}

// Walks chunk after chunk.
fn walk_all(system: &System, fd: i32, layout: Layout, opening: &[u8], end: usize) -> Walk
    ensures { Walks layout opening.now end result }
{
    let mut walking = riff_chunks::begin(end);
    // By hand: the size in a head that was read says where the next one stands, so what is left ends the loop, and no
    // count does. Each step passes at least 8 bytes.
    while walking.left >= 8 {
        let turned = one_turn(system, fd, layout, opening, walking, end);
        match turned {
            Turned::Walking(w) => {
                walking = w;
            }
            Turned::Broken(number) => {
                return Walk::Broken(number);
            }
        }
    }
    let seen = walking.seen;
    Walk::Done(seen)
}

fn one_turn(
    system: &System,
    fd: i32,
    layout: Layout,
    opening: &[u8],
    walking: Walking,
    end: usize,
) -> Turned
    ensures { Turns layout opening.now end walking result }
{
    let mut head = [0u8; 8];
    let left = walking.left;
    if end < left {
        return Turned::Broken(2);
    }
    let number = read_at(system, fd, end - left, &mut head);
    if number != 0 {
        return Turned::Broken(number);
    }
    turn_by(layout, opening, walking, end, &head)
}

fn turn_by(layout: Layout, opening: &[u8], walking: Walking, end: usize, head: &[u8]) -> Turned
    requires { walking.left ≤ end }
    ensures { Turns layout opening.now end walking result }
{
    Turned::Walking(file_turns::turn(layout, opening, walking, end, head))
}

// Reads the first bytes of the chunk that describes the samples, then those of the one that holds them.
fn find(system: &System, fd: i32, layout: Layout, end: usize, walked: Walked) -> Opened
    ensures { Finds layout end walked result }
{
    let mut bytes = [0u8; 40];
    let format = walked.format;
    let n = fewer(format.size, file_layout::format_bytes(layout));
    if format.found {
        let number = read_begun(system, fd, format.body, &mut bytes, n);
        if number != 0 {
            return broken(number);
        }
    }
    find_in(system, fd, layout, end, walked, &bytes, n)
}

fn find_in(
    system: &System,
    fd: i32,
    layout: Layout,
    end: usize,
    walked: Walked,
    bytes: &[u8; 40],
    n: usize,
) -> Opened
    ensures { Finds layout end walked result }
{
    find_samples(system, fd, layout, end, walked, begun(bytes, n))
}

fn find_samples(
    system: &System,
    fd: i32,
    layout: Layout,
    end: usize,
    walked: Walked,
    format: &[u8],
) -> Opened
    ensures { Finds layout end walked result }
{
    let mut bytes = [0u8; 8];
    let samples = walked.samples;
    let n = fewer(samples.size, file_layout::samples_bytes(layout));
    if samples.found {
        let number = read_begun(system, fd, samples.body, &mut bytes, n);
        if number != 0 {
            return broken(number);
        }
    }
    find_both(fd, layout, end, walked, format, &bytes, n)
}

fn find_both(
    fd: i32,
    layout: Layout,
    end: usize,
    walked: Walked,
    format: &[u8],
    bytes: &[u8; 8],
    n: usize,
) -> Opened
    ensures { Finds layout end walked result }
{
    let samples = begun(bytes, n);
    let found = file_turns::finish(layout, walked, end, format, samples);
    opened_as(fd, layout, file_turns::told_of(layout, format), found)
}

fn opened_as(fd: i32, layout: Layout, told: Told, found: Found) -> Opened
    ensures { result ≡ opened_as fd layout told found }
{
    match found {
        Found::Wave(wave) => Opened::File(file_of(fd, layout, told, wave)),
        Found::Refused(number) => Opened::Refused(refusal(number, told)),
    }
}

fn file_of(fd: i32, layout: Layout, told: Told, wave: Wave) -> WaveFile
    ensures { result ≡ file_of fd layout told wave }
{
    let kind = wave.kind;
    let frame = sample_kind::frame_width(kind, wave.channels);
    WaveFile {
        fd: fd,
        layout: layout,
        kind: kind,
        channels: wave.channels,
        rate: wave.rate,
        start: wave.start,
        frame: frame,
        frames: quotient(wave.length, frame),
        wrapped: told.tag == 0xfffe,
    }
}
