// W12. AIFF, Apple's published layout: the part of a file that holds samples and what they are, or a refusal by number.
#![tactic(auto)]

ghost use Rattle.std.specs.Prelude.{◌≡◌, take, drop};
ghost use Rattle.aiff.specs.Aiff.{head_of, found_in, told_in};

mod finding;
mod first_tests;

pub use finding::finish;
pub use first_tests::is_aiff;
use high_first::{eight, four, two};
use sample_kind::SampleKind;

// There are one or two channels, and the samples are the `length` bytes from `start` on, the high byte of each sample
// first.
#[derive(Clone, Copy)]
pub struct Sound {
    pub kind: SampleKind,
    pub channels: u8,
    pub rate: u32,
    pub start: usize,
    pub length: usize,
}

#[derive(Clone, Copy)]
pub enum Found {
    Sound(Sound),
    Refused(u8),
}

// What the first `COMM` says, its size, the size of the first `SSND` and its offset; zeros for what is missing. The
// rate is given as it stands: `exponent`, with the sign, and `digits`.
#[derive(Clone, Copy)]
pub struct Told {
    pub comm: usize,
    pub channels: u32,
    pub frames: u32,
    pub bits: u32,
    pub exponent: u32,
    pub digits: u64,
    pub ssnd: usize,
    pub offset: u32,
}

pub fn read(file: &[u8]) -> Found
    ensures { result ≡ found_in file.now }
{
    let size = four(file, 4);
    let end = 8 + size as usize;
    let walked = form_chunks::walk(file, end);
    let comm = walked.format;
    let ssnd = walked.samples;
    let c = head_of(file, comm.body, comm.size, 18);
    let s = head_of(file, ssnd.body, ssnd.size, 8);
    finish(is_aiff(file), end <= file.len(), end, c, s, walked)
}

// What a file says of its samples, whether it is refused or not, for a caller that explains a refusal.
pub fn chunks_told(file: &[u8]) -> Told
    ensures { result ≡ told_in file.now }
{
    let size = four(file, 4);
    let walked = form_chunks::walk(file, 8 + size as usize);
    let comm = walked.format;
    let ssnd = walked.samples;
    let c = head_of(file, comm.body, comm.size, 18);
    let s = head_of(file, ssnd.body, ssnd.size, 8);
    Told {
        comm: comm.size,
        channels: two(c, 0),
        frames: four(c, 2),
        bits: two(c, 6),
        exponent: two(c, 8),
        digits: eight(c, 10),
        ssnd: ssnd.size,
        offset: four(s, 0),
    }
}

// The part of a file that holds the samples.
pub fn part(file: &[u8], sound: Sound) -> &[u8]
    ensures { result.now ≡ take sound.length (drop sound.start file.now) }
{
    word_bytes::part(file, sound.start, sound.length)
}

// The first `most` bytes of a body; fewer if it has fewer.
fn head_of(file: &[u8], body: usize, size: usize, most: usize) -> &[u8]
    ensures { result.now ≡ head_of most file.now body size }
{
    word_bytes::part(file, body, size.min(most))
}
