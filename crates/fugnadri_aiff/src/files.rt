// W12. Reading a file returns the refusal number, 0 for none, and writes what was found, zeros if it is refused. A
// second export gives what its `COMM` and its `SSND` say, refused or not, to a caller that explains a refusal.
ghost use Rattle.std.specs.Prelude.{◌≡◌};
ghost use Rattle.aiff.specs.Aiff.{found_in, told_in};
ghost use Rattle.fugnadri_aiff.specs.Doors.{number_of, sound_of, leaves, left_by, tells};

use aiff::{Found, Sound};
use sample_kind::{SampleKind, code};

pub fn fugnadri_aiff_read(
    file: &[u8],
    kind: &mut u8,
    channels: &mut u8,
    rate: &mut u32,
    start: &mut usize,
    size: &mut usize,
) -> u8
    ensures { leaves result
        kind.new channels.new rate.new start.new size.new
        ≡ left_by (found_in file.now) }
{
    let found = aiff::read(file);
    let f = sound(found);
    let k = f.kind;
    *kind = code(k);
    *channels = f.channels;
    *rate = f.rate;
    *start = f.start;
    *size = f.length;
    number(found)
}

// Nothing is refused: what is missing gives zeros.
pub fn fugnadri_aiff_told(
    file: &[u8],
    comm: &mut usize,
    channels: &mut u32,
    frames: &mut u32,
    bits: &mut u32,
    exponent: &mut u32,
    digits: &mut u64,
    ssnd: &mut usize,
    offset: &mut u32,
)
    ensures { tells
        comm.new channels.new frames.new bits.new exponent.new
        digits.new ssnd.new offset.new
        ≡ told_in file.now }
{
    let t = aiff::chunks_told(file);
    *comm = t.comm;
    *channels = t.channels;
    *frames = t.frames;
    *bits = t.bits;
    *exponent = t.exponent;
    *digits = t.digits;
    *ssnd = t.ssnd;
    *offset = t.offset;
}

fn number(found: Found) -> u8
    ensures { result ≡ number_of found }
{
    match found {
        Found::Sound(_) => 0,
        Found::Refused(k) => k,
    }
}

fn sound(found: Found) -> Sound
    ensures { result ≡ sound_of found }
{
    match found {
        Found::Sound(f) => f,
        Found::Refused(_) => Sound {
            kind: SampleKind::Pcm16,
            channels: 0,
            rate: 0,
            start: 0,
            length: 0,
        },
    }
}
