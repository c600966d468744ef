// W10c, W12. The header of a recording in any layout, read step by step: an AIFF's by aiff_turns, every other by
// long_turns. The first bytes of the file are lent at each step, then the 8 bytes at the head of each chunk, then the
// first bytes of the chunk that describes the samples and of the one that holds them.
#![tactic(auto)]

ghost use Rattle.std.specs.Prelude.{◌≡◌};
ghost use Rattle.file_turns.specs.Turns.{begun_in, turned_in, finished_in, wave_of, as_wave};
ghost use Rattle.file_turns.specs.Turns.{comm_told, fmt_told, told_by};

use aiff::Sound;
use file_layout::{Layout, is_aiff};
use little_endian::two;
use riff_chunks::{Walked, Walking};
use sizes::begun;
use wav::{Found, Wave};
use wav_opening::Begun;

// What `fmt ` or `COMM` says of the samples. A `COMM` has no tag and no frame width, so these are 0.
#[derive(Drop)]
pub struct Told {
    pub tag: u32,
    pub channels: u32,
    pub block: u32,
    pub bits: u32,
}

// The refusal, 0 for none, and the place where the walk over the chunks ends. The walk then begins with
// `riff_chunks::begin(end)`.
pub fn begin(layout: Layout, opening: &[u8], length: usize) -> Begun
    ensures { result ≡ begun_in layout opening.now length }
{
    if is_aiff(layout) {
        let started = aiff_turns::start(begun(opening, 12), length);
        return Begun {
            refusal: started.refusal,
            end: started.end,
        };
    }
    wav_opening::begin(opening, length)
}

// One more chunk; `head` is the 8 bytes at the place `end` less what is left.
pub fn turn(layout: Layout, opening: &[u8], walking: Walking, end: usize, head: &[u8]) -> Walking
    ensures { result ≡ turned_in layout opening.now walking end head.now }
{
    if is_aiff(layout) {
        return aiff_turns::turn(walking, end, head);
    }
    long_turns::turn(opening, walking, end, head)
}

// The answer, from the walk and the first bytes of both chunks: a refusal, or the part that holds the samples and what
// they are.
pub fn finish(layout: Layout, walked: Walked, end: usize, format: &[u8], samples: &[u8]) -> Found
    ensures { result ≡ finished_in layout walked end format.now samples.now }
{
    if is_aiff(layout) {
        return as_wave(aiff_turns::finish(walked, end, format, samples));
    }
    wav_turns::finish(walked, format)
}

fn as_wave(found: aiff::Found) -> Found
    ensures { result ≡ as_wave found }
{
    match found {
        aiff::Found::Sound(sound) => Found::Wave(wave_of(sound)),
        aiff::Found::Refused(number) => Found::Refused(number),
    }
}

fn wave_of(sound: Sound) -> Wave
    ensures { result ≡ wave_of sound }
{
    let kind = sound.kind;
    Wave {
        kind: kind,
        channels: sound.channels,
        rate: sound.rate,
        start: sound.start,
        length: sound.length,
    }
}

// What a message about a refusal needs. The numbers are zeros if the bytes of the chunk are missing.
pub fn told_of(layout: Layout, format: &[u8]) -> Told
    ensures { result ≡ told_by layout format.now }
{
    if is_aiff(layout) {
        return comm_told(format);
    }
    fmt_told(format)
}

fn comm_told(comm: &[u8]) -> Told
    ensures { result ≡ comm_told comm.now }
{
    let channels = high_first::two(comm, 0);
    let bits = high_first::two(comm, 6);
    Told {
        tag: 0,
        channels: channels,
        block: 0,
        bits: bits,
    }
}

fn fmt_told(fmt: &[u8]) -> Told
    ensures { result ≡ fmt_told fmt.now }
{
    let tag = two(fmt, 0);
    let channels = two(fmt, 2);
    let block = two(fmt, 12);
    let bits = two(fmt, 14);
    Told {
        tag: tag,
        channels: channels,
        block: block,
        bits: bits,
    }
}
