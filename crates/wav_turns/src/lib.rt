// W1. A RIFF WAVE file read step by step, for files that are too long to be held. It takes the first 12 bytes and the
// length, then the 8 bytes at the head of each chunk that is walked, then the first 40 bytes of `fmt `. The answer is
// that of the whole file, by the reading that accepts wrapped kinds.
#![tactic(auto)]

ghost use Rattle.std.specs.Prelude.{◌≡◌, [], ◌∷◌};
ghost use Rattle.refusal_order.specs.Order.{◌unless◌, first_of};
ghost use Rattle.wav_turns.specs.Turns.{started_of, turned_by, finished_of};

use riff_chunks::{Chunk, Walked, Walking, riff_sought};
use wav::{Found, is_wave};
use word_bytes::low_first_u32;

// `refusal` is 9 or 10 if the beginning shows it already, and otherwise 0; `end` is the end of the walk.
#[derive(Clone, Copy)]
pub struct Started {
    pub refusal: u8,
    pub end: usize,
}

// The walk then begins with `riff_chunks::begin(end)`.
pub fn start(head: &[u8], length: usize) -> Started
    ensures { result ≡ started_of head.now length }
{
    let end = 8 + low_first_u32(head, 4) as usize;
    Started {
        refusal: due(is_wave(head), end <= length),
        end: end,
    }
}

fn due(wave: bool, held: bool) -> u8
    ensures { result ≡ first_of (9 unless wave ∷ 10 unless held ∷ []) }
{
    if wave { if held { 0 } else { 10 } } else { 9 }
}

// One more chunk. `head` is the 8 bytes at the place `end` less what is left; if fewer than 8 are left the walk is
// over.
pub fn turn(walking: Walking, end: usize, head: &[u8]) -> Walking
    ensures { result ≡ turned_by walking end head.now }
{
    let left = walking.left;
    if left < 8 {
        return walking;
    }
    if end < left {
        return walking;
    }
    let at = end - left;
    let id = low_first_u32(head, 0);
    let size = low_first_u32(head, 4);
    let c = Chunk {
        id: id,
        body: at + 8,
        size: size as usize,
    };
    riff_chunks::turn(walking, riff_sought(), c)
}

// The answer from the walk and the first bytes of `fmt `: a refusal by 10 to 13, or where the samples stand and what
// they are.
pub fn finish(walked: Walked, fmt: &[u8]) -> Found
    ensures { result ≡ finished_of walked fmt.now }
{
    let format = walked.format;
    let tag = wav_format::tag_of(true, fmt, format.size);
    wav::finish(true, !walked.overruns, tag, fmt, walked)
}
