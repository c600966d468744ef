// W1. RIFF WAVE, the published layout: the part of a file that holds samples and what they are, or a refusal by number.
#![tactic(auto)]

ghost use Rattle.std.specs.Prelude.{◌≡◌};
ghost use Rattle.wav_format.specs.Tags.{tag_by};
ghost use Rattle.wav.specs.Wave.{found_by, found_in, found_wrapped, told_in, part_of};

mod finding;
mod first_tests;

pub use finding::finish;
pub use first_tests::is_wave;
use first_tests::{past, within};
use little_endian::two;
use sample_kind::SampleKind;
use wav_format::tag_of;
use word_bytes::low_first_u32;

// There are one or two channels, and the samples are the `length` bytes from `start` on.
#[derive(Clone, Copy)]
pub struct Wave {
    pub kind: SampleKind,
    pub channels: u8,
    pub rate: u32,
    pub start: usize,
    pub length: usize,
}

#[derive(Clone, Copy)]
pub enum Found {
    Wave(Wave),
    Refused(u8),
}

// What the first `fmt ` says, its size, and the size of the first `data`; zeros for what is missing.
#[derive(Clone, Copy)]
pub struct Told {
    pub size: usize,
    pub tag: u32,
    pub channels: u32,
    pub block: u32,
    pub bits: u32,
    pub samples: usize,
}

// Tag 1 is PCM and tag 3 IEEE float; every other tag is refused by 13.
pub fn read(file: &[u8]) -> Found
    ensures { result ≡ found_in file.now }
{
    read_by(false, file)
}

// `read`, except that a kind wrapped as WAVE_FORMAT_EXTENSIBLE, tag FFFE, is read by the tag inside.
pub fn read_wrapped(file: &[u8]) -> Found
    ensures { result ≡ found_wrapped file.now }
{
    read_by(true, file)
}

fn read_by(wrapped: bool, file: &[u8]) -> Found
    ensures { result ≡ found_by (tag_by wrapped) file.now }
{
    let size = low_first_u32(file, 4);
    let end = 8 + size as usize;
    // If the RIFF runs past the file the number is known without a walk.
    if file.len() < end {
        return Found::Refused(past(is_wave(file)));
    }
    let walked = riff_chunks::walk(file, end);
    let format = walked.format;
    let samples = walked.samples;
    let f = part_of(file, format.body, format.size);
    let tag = tag_of(wrapped, f, format.size);
    finish(is_wave(file), within(file, walked.overruns), tag, f, walked)
}

// What a file says of its samples, whether it is refused or not, for a caller that explains a 13.
pub fn fmt_told(file: &[u8]) -> Told
    ensures { result ≡ told_in file.now }
{
    let size = low_first_u32(file, 4);
    let walked = riff_chunks::walk(file, 8 + size as usize);
    let format = walked.format;
    let samples = walked.samples;
    let f = part_of(file, format.body, format.size);
    Told {
        size: format.size,
        tag: two(f, 0),
        channels: two(f, 2),
        block: two(f, 12),
        bits: two(f, 14),
        samples: samples.size,
    }
}

// The part of a file that holds the samples.
pub fn part(file: &[u8], wave: Wave) -> &[u8]
    ensures { result.now ≡ part_of file.now wave.start wave.length }
{
    part_of(file, wave.start, wave.length)
}

// Up to `size` bytes of s from a place on; fewer if s ends before that.
pub fn part_of(s: &[u8], start: usize, size: usize) -> &[u8]
    ensures { result.now ≡ part_of s.now start size }
{
    if s.len() <= start {
        return &s[..0];
    }
    if size < s.len() - start {
        let end = start + size;
        return &s[start..end];
    }
    &s[start..]
}
