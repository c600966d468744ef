// W1. The steps of a walk: its beginning, and one more chunk. Any numbers are accepted.
ghost use Rattle.std.specs.Prelude.{◌≡◌, ◌%◌};
ghost use Rattle.riff_chunks.specs.Walk.{begun, turned, left_after, is_last};

use crate::spots::{noted, unseen};
use crate::{Chunk, Sought, Walking};

// A file begins with 12 bytes: four letters, a size, four letters.
pub fn begin(end: usize) -> Walking
    ensures { result ≡ begun end }
{
    let seen = unseen();
    Walking {
        left: end.saturating_sub(12),
        seen: seen,
    }
}

// One more chunk. Its header takes 8 of the bytes that are left.
pub fn turn(walking: Walking, sought: Sought, c: Chunk) -> Walking
    ensures { result ≡ turned sought walking c }
{
    let room = walking.left.saturating_sub(8);
    let before = walking.seen;
    let seen = noted(sought, before, c, c.size > room);
    Walking {
        left: left_after(sought, c, room),
        seen: seen,
    }
}

// Nothing is left if the walk ends with this chunk, or if the chunk runs past the end. The pad byte of the last chunk
// may be missing.
fn left_after(sought: Sought, c: Chunk, room: usize) -> usize
    ensures { result ≡ left_after sought c room }
{
    if is_last(sought, c) {
        return 0;
    }
    if room < c.size {
        return 0;
    }
    let rest = room - c.size;
    if rest == 0 { 0 } else { rest - pad(c.size) }
}

fn pad(size: usize) -> usize
    ensures { result ≡ size % 2 }
{
    size % 2
}

fn is_last(sought: Sought, c: Chunk) -> bool
    ensures { result ≡ is_last sought c }
{
    if sought.ends {
        return c.id == sought.samples;
    }
    false
}
