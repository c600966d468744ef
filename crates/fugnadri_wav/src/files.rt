// W1. Reading a whole file: returns the refusal number, 0 for none, and writes what was found, zeros if refused. What
// its `fmt ` says is handed out even if the file is refused, so that a caller can explain the refusal.
ghost use Rattle.std.specs.Prelude.{◌≡◌};
ghost use Rattle.wav.specs.Wave.{found_in, found_wrapped, told_in};
ghost use Rattle.fugnadri_wav.specs.Exports.{number_of, wave_of, leaves, left_by, tells};

use sample_kind::{SampleKind, code};
use wav::{Found, Wave};

pub fn fugnadri_wav_read(
    file: &[u8],
    kind: &mut u8,
    channels: &mut u8,
    rate: &mut u32,
    start: &mut usize,
    size: &mut usize,
) -> u8
    ensures { leaves result
        kind.new channels.new rate.new start.new size.new
        ≡ left_by (found_in file.now) }
{
    hand_out(wav::read(file), kind, channels, rate, start, size)
}

// The same, except that a kind inside WAVE_FORMAT_EXTENSIBLE, tag FFFE, is read by the tag inside.
pub fn fugnadri_wav_read_wrapped(
    file: &[u8],
    kind: &mut u8,
    channels: &mut u8,
    rate: &mut u32,
    start: &mut usize,
    size: &mut usize,
) -> u8
    ensures { leaves result
        kind.new channels.new rate.new start.new size.new
        ≡ left_by (found_wrapped file.now) }
{
    hand_out(wav::read_wrapped(file), kind, channels, rate, start, size)
}

// Writes what `fmt ` says, and the size of `data`. Nothing is refused: the numbers of a chunk that is missing are
// zeros.
pub fn fugnadri_wav_told(
    file: &[u8],
    size: &mut usize,
    tag: &mut u32,
    channels: &mut u32,
    block: &mut u32,
    bits: &mut u32,
    samples: &mut usize,
)
    ensures { tells
        size.new tag.new channels.new block.new bits.new
        samples.new
        ≡ told_in file.now }
{
    let t = wav::fmt_told(file);
    *size = t.size;
    *tag = t.tag;
    *channels = t.channels;
    *block = t.block;
    *bits = t.bits;
    *samples = t.samples;
}

pub(crate) fn hand_out(
    found: Found,
    kind: &mut u8,
    channels: &mut u8,
    rate: &mut u32,
    start: &mut usize,
    size: &mut usize,
) -> u8
    ensures { leaves result
        kind.new channels.new rate.new start.new size.new
        ≡ left_by found }
{
    let w = wave(found);
    let k = w.kind;
    *kind = code(k);
    *channels = w.channels;
    *rate = w.rate;
    *start = w.start;
    *size = w.length;
    number(found)
}

fn number(found: Found) -> u8
    ensures { result ≡ number_of found }
{
    match found {
        Found::Wave(_) => 0,
        Found::Refused(k) => k,
    }
}

fn wave(found: Found) -> Wave
    ensures { result ≡ wave_of found }
{
    match found {
        Found::Wave(w) => w,
        Found::Refused(_) => Wave {
            kind: SampleKind::Pcm16,
            channels: 0,
            rate: 0,
            start: 0,
            length: 0,
        },
    }
}
