// W12. The answer, once the first tests have been made, the chunks walked and the first bytes of `COMM` and `SSND`
// read.
ghost use Rattle.std.specs.Prelude.{◌≡◌, ◌≤◌};
ghost use Rattle.aiff.specs.Aiff.{kind_of, length_of, has_parts, listed, found_of};

use crate::first_tests::{first, is_inside};
use crate::{Found, Sound};
use extended_rate::rate_of;
use high_first::{eight, four, two};
use refusal_order::both;
use riff_chunks::Walked;
use sample_kind::{SampleKind, width};

// `aiff` is the test for 20, and `held` says whether the FORM's end lies in the file; c and s are the first bytes of
// `COMM` and of `SSND`. A caller that reads step by step may hand in any walk, so an `SSND` that ends behind the end is
// refused by 10.
pub fn finish(aiff: bool, held: bool, end: usize, c: &[u8], s: &[u8], walked: Walked) -> Found
    ensures { result ≡ found_of aiff held end c.now s.now walked }
{
    let offset = four(s, 0) as usize;
    let length = length_of(c);
    let rate = rate_of(two(c, 8), eight(c, 10));
    let ssnd = walked.samples;
    let refusal = first(
        aiff,
        both(held, is_inside(end, walked)),
        has_parts(walked, offset),
        is_listed(two(c, 0), two(c, 6)),
        8 + offset + length <= ssnd.size,
        rate > 0,
    );
    if refusal != 0 {
        return Found::Refused(refusal);
    }
    let channels = two(c, 0);
    let kind = kind_of(two(c, 6));
    Found::Sound(Sound {
        kind,
        channels: channels as u8,
        rate,
        start: ssnd.body + 8 + offset,
        length,
    })
}

// The test for 21 without the frames: both chunks are there, neither is too short, and the offset is not past the end.
fn has_parts(walked: Walked, offset: usize) -> bool
    requires { offset ≤ 0xffff_ffff }
    ensures { result ≡ has_parts walked offset }
{
    let comm = walked.format;
    let ssnd = walked.samples;
    both(
        both(comm.found, ssnd.found),
        both(
            comm.size >= 18,
            both(ssnd.size >= 8, 8 + offset <= ssnd.size),
        ),
    )
}

// The test for 13: one or two channels of 16 or 24 bits.
fn is_listed(channels: u32, bits: u32) -> bool
    ensures { result ≡ listed channels bits }
{
    (channels == 1 || channels == 2) && (bits == 16 || bits == 24)
}

fn kind_of(bits: u32) -> SampleKind
    ensures { result ≡ kind_of bits }
{
    if bits == 16 {
        return SampleKind::Pcm16;
    }
    SampleKind::Pcm24
}

// How many bytes all frames have.
fn length_of(c: &[u8]) -> usize
    ensures value { result ≡ length_of c.now }
    ensures upper_bound { result ≤ 0x4_0000_0000_0000 }
{
    let frames = four(c, 2);
    let frame = two(c, 0) as usize * width(kind_of(two(c, 6)));
    frames as usize * frame
}
