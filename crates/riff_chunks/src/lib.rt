// W1. The walk over the chunks of a RIFF WAVE file: which of them run past the end, and where the first `fmt ` and the
// first `data` stand. Any bytes and any end are accepted. An end behind the file is replaced by the file's, so that a
// walk is never longer than the file. Its steps are public too, for layouts with other identifiers or sizes.
#![tactic(auto)]

ghost use Rattle.std.specs.Prelude.{◌≡◌, ◌+◌, ◌<◌};
ghost use Rattle.word_bytes.specs.Bytes.{bytes_value};
ghost use Rattle.riff_chunks.specs.Chunks.{chunk_at};
ghost use Rattle.riff_chunks.specs.Walk.{walk_to, walk_of, riff_sought};

mod spots;
mod turns;

pub use turns::{begin, turn};
use word_bytes::low_first_u32;

#[derive(Clone, Copy)]
pub struct Chunk {
    pub id: u32,
    pub body: usize,
    pub size: usize,
}

// The two identifiers that the walk looks for, and whether the first chunk with the second one ends it.
#[derive(Clone, Copy)]
pub struct Sought {
    pub format: u32,
    pub samples: u32,
    pub ends: bool,
}

// The body of a chunk that was looked for: its place and its size, both 0 if it was not found.
#[derive(Clone, Copy)]
pub struct Spot {
    pub found: bool,
    pub body: usize,
    pub size: usize,
}

#[derive(Clone, Copy)]
pub struct Walked {
    pub overruns: bool,
    pub format: Spot,
    pub samples: Spot,
}

// A walk that is not over: how many bytes are left before the end, and what has been seen.
#[derive(Clone, Copy)]
pub struct Walking {
    pub left: usize,
    pub seen: Walked,
}

// The chunks behind the 12 bytes of a RIFF's beginning, up to its end or the end of the file, whichever comes first.
pub fn walk(file: &[u8], end: usize) -> Walked
    ensures { result ≡ walk_of file.now end }
{
    walk_to(file, end.min(file.len()))
}

// The walk up to an end that lies in the file. The bytes that are left are counted down, so that no sum can overflow.
fn walk_to(file: &[u8], end: usize) -> Walked
    ensures { result ≡ walk_to riff_sought (chunk_at bytes_value file.now) end }
{
    let sought = riff_sought();
    let mut walking = begin(end);
    // By hand: a chunk's size says how far the walk goes on, and what it has found may end it; no count does.
    while walking.left >= 8 {
        let left = walking.left;
        let c = chunk_at(file, end - left);
        walking = turn(walking, sought, c);
    }
    walking.seen
}

// The walk looks for `fmt ` and `data`, and the first `data` ends it.
pub fn riff_sought() -> Sought
    ensures { result ≡ riff_sought }
{
    Sought {
        format: 0x2074_6d66,
        samples: 0x6174_6164,
        ends: true,
    }
}

fn chunk_at(file: &[u8], at: usize) -> Chunk
    requires { at + 8 < 0x1_0000_0000_0000_0000 }
    ensures { result ≡ chunk_at bytes_value file.now at }
{
    let id = low_first_u32(file, at);
    let size = low_first_u32(file, at + 4);
    Chunk {
        id: id,
        body: at + 8,
        size: size as usize,
    }
}
