// W12. An AIFF file read step by step, for files that are too long to be held. It takes the first 12 bytes and the
// length, then the 8 bytes at the head of each chunk, then the first 18 bytes of `COMM` and the first 8 of `SSND`,
// fewer if they have fewer. The answer is that of the whole file.
#![tactic(auto)]

ghost use Rattle.std.specs.Prelude.{◌≡◌, [], ◌∷◌};
ghost use Rattle.refusal_order.specs.Order.{◌unless◌, first_of};
ghost use Rattle.aiff_turns.specs.Turns.{started_of, turned_by, finished_of};

use aiff::{Found, is_aiff};
use form_chunks::form_sought;
use high_first::four;
use riff_chunks::{Chunk, Walked, Walking};
use word_bytes::low_first_u32;

// `refusal` is 20 or 10 if the beginning shows it already, and otherwise 0; `end` is the end of the walk.
#[derive(Clone, Copy)]
pub struct Started {
    pub refusal: u8,
    pub end: usize,
}

// The walk then begins with `riff_chunks::begin(end)`.
pub fn start(head: &[u8], length: usize) -> Started
    ensures { result ≡ started_of head.now length }
{
    let end = 8 + four(head, 4) as usize;
    Started {
        refusal: due(is_aiff(head), end <= length),
        end: end,
    }
}

fn due(aiff: bool, held: bool) -> u8
    ensures { result ≡ first_of (20 unless aiff ∷ 10 unless held ∷ []) }
{
    if aiff { if held { 0 } else { 10 } } else { 20 }
}

// One more chunk. `head` is the 8 bytes at the place `end` less what is left; if fewer than 8 are left the walk is
// over.
pub fn turn(walking: Walking, end: usize, head: &[u8]) -> Walking
    ensures { result ≡ turned_by walking end head.now }
{
    let left = walking.left;
    if left < 8 {
        return walking;
    }
    if end < left {
        return walking;
    }
    let at = end - left;
    let id = low_first_u32(head, 0);
    let size = four(head, 4);
    let c = Chunk {
        id: id,
        body: at + 8,
        size: size as usize,
    };
    riff_chunks::turn(walking, form_sought(), c)
}

// The answer from the walk and the first bytes of both chunks: a refusal, or where the samples stand and what they are.
pub fn finish(walked: Walked, end: usize, comm: &[u8], ssnd: &[u8]) -> Found
    ensures { result ≡ finished_of walked end comm.now ssnd.now }
{
    aiff::finish(true, true, end, comm, ssnd, walked)
}
