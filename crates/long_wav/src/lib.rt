// W10. A WAV file of any length, RIFF, RF64 or BW64, read from its first bytes. The caller passes the file's length as
// a number, and only the bytes up to the first one of `data` are read.
#![tactic(auto)]

ghost use Rattle.std.specs.Prelude.{◌≡◌};
ghost use Rattle.wav_format.specs.Tags.{tag_by};
ghost use Rattle.long_wav.specs.Reading.{needs_of, header_by, header_in, header_wrapped};

mod heads; // the walk over the lent heads

use heads::heads_of;
use wav::Found;
use wav_format::tag_of;
use wav_opening::{begin, opening_needs, told};

// Reads a file of `length` bytes from its first ones. 2 means that more of them are needed, and `needs` says how many.
pub fn read_header(prefix: &[u8], length: usize) -> Found
    ensures { result ≡ header_in prefix.now length }
{
    read_by(false, prefix, length)
}

// The same, except that a kind inside WAVE_FORMAT_EXTENSIBLE, tag FFFE, is read by the tag inside.
pub fn read_header_wrapped(prefix: &[u8], length: usize) -> Found
    ensures { result ≡ header_wrapped prefix.now length }
{
    read_by(true, prefix, length)
}

// How many of the file's first bytes the caller must lend to continue, or 0 if enough are lent.
pub fn needs(prefix: &[u8], length: usize) -> usize
    ensures { result ≡ needs_of prefix.now length }
{
    let opening = opening_needs(prefix, length);
    if opening != 0 {
        return opening;
    }
    let begun = told(prefix, length);
    if begun.refusal != 0 {
        return 0;
    }
    let reached = heads_of(prefix, begun.end);
    reached.asked
}

fn read_by(wrapped: bool, prefix: &[u8], length: usize) -> Found
    ensures { result ≡ header_by (tag_by wrapped) prefix.now length }
{
    let begun = begin(prefix, length);
    if begun.refusal != 0 {
        return Found::Refused(begun.refusal);
    }
    let reached = heads_of(prefix, begun.end);
    if reached.asked != 0 {
        return Found::Refused(2);
    }
    let walked = reached.seen;
    let format = walked.format;
    let f = wav::part_of(prefix, format.body, format.size);
    let tag = tag_of(wrapped, f, format.size);
    wav::finish(true, !walked.overruns, tag, f, walked)
}
