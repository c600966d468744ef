// A recording opened by its name: what its samples are and where they stand, or why it cannot be used; and its frames,
// read from any place on. Every program opens its recordings here, be they RIFF, RF64, BW64 or AIFF. The header is read
// step by step, since the file may be too long to be held. No contract can say which bytes a call reads: file_turns
// says what follows from them, and `Opens` says that there is no other answer.
#![tactic(auto)]

ghost use Rattle.wave_file.specs.Opening.{Opens};
ghost use Rattle.wave_file.specs.Reads.{Reads};

mod header; // the header, step by step
mod reading; // bytes from a place on

use file_layout::{Layout, is_aiff};
use reading::read_begun;
use sample_kind::SampleKind;
use sizes::{plus, times};
use system::System;

// An open file: frames of `frame` bytes from `start` on. `wrapped` says that the kind stood inside
// WAVE_FORMAT_EXTENSIBLE.
#[derive(Clone, Copy)]
pub struct WaveFile {
    pub fd: i32,
    pub layout: Layout,
    pub kind: SampleKind,
    pub channels: u8,
    pub rate: u32,
    pub start: usize,
    pub frame: usize,
    pub frames: usize,
    pub wrapped: bool,
}

// A refusal number, and what `fmt ` or `COMM` says. The numbers are zeros if that chunk was not reached, or does not
// say them.
#[derive(Clone, Copy)]
pub struct Refused {
    pub number: u8,
    pub tag: u32,
    pub channels: u32,
    pub block: u32,
    pub bits: u32,
}

// For `Unread`, the system has the reason. `Shorter` is a file that became shorter while it was read.
#[derive(Clone, Copy)]
pub enum Opened {
    File(WaveFile),
    Unread,
    Empty,
    Shorter,
    Refused(Refused),
}

// Opens a file. A file that cannot be used is closed again.
pub fn open(system: &System, name: &[u8]) -> Opened
    ensures { Opens result }
{
    let fd = system.open_read(name);
    if fd < 0 {
        return Opened::Unread;
    }
    let opened = header::look_into(system, fd);
    match opened {
        Opened::File(_) => opened,
        _ => {
            system.close(fd);
            opened
        }
    }
}

// Reads n frames, from frame number `frame` on, into the beginning of a slice, each sample with its low byte first.
// Returns 0, 1 if the call failed, for the reason that the system has, or 2 if the file ended.
pub fn read_frames(system: &System, file: WaveFile, frame: usize, bytes: &mut [u8], n: usize) -> u8
    ensures { Reads result }
{
    let at = plus(file.start, times(frame, file.frame));
    let kind = file.kind;
    let layout = file.layout;
    let io = read_begun(system, file.fd, at, &mut bytes[..], times(n, file.frame));
    if is_aiff(layout) {
        turned_bytes::turn_round(kind, &mut bytes[..]);
    }
    io
}
