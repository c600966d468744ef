// W12. The walk over the chunks of an AIFF file: the walk of RIFF, with sizes whose high byte comes first. It looks for
// `COMM` and `SSND`; the first of each counts, and nothing ends the walk before the FORM does. Any bytes and any end
// are accepted.
#![tactic(auto)]

ghost use Rattle.std.specs.Prelude.{◌≡◌, ◌+◌, ◌<◌};
ghost use Rattle.riff_chunks.specs.Walk.{walk_to};
ghost use Rattle.form_chunks.specs.Form.{form_chunk, form_sought, form_walk};

use high_first::four;
use riff_chunks::{Chunk, Sought, Walked, begin, turn};
use word_bytes::low_first_u32;

// The chunks behind the 12 bytes of a FORM's beginning, up to its end or the end of the file, whichever comes first.
pub fn walk(file: &[u8], end: usize) -> Walked
    ensures { result ≡ form_walk file.now end }
{
    walk_to(file, end.min(file.len()))
}

fn walk_to(file: &[u8], end: usize) -> Walked
    ensures { result ≡ walk_to form_sought (form_chunk file.now) end }
{
    let sought = form_sought();
    let mut walking = begin(end);
    // By hand: a chunk's size says how far the walk goes on, and what it has found may end it; no count does.
    while walking.left >= 8 {
        let left = walking.left;
        let c = chunk_at(file, end - left);
        walking = turn(walking, sought, c);
    }
    walking.seen
}

// The walk looks for `COMM` and `SSND`, which may stand in either order.
pub fn form_sought() -> Sought
    ensures { result ≡ form_sought }
{
    Sought {
        format: 0x4d4d_4f43,
        samples: 0x444e_5353,
        ends: false,
    }
}

fn chunk_at(file: &[u8], at: usize) -> Chunk
    requires { at + 8 < 0x1_0000_0000_0000_0000 }
    ensures { result ≡ form_chunk file.now at }
{
    let id = low_first_u32(file, at);
    let size = four(file, at + 4);
    Chunk {
        id: id,
        body: at + 8,
        size: size as usize,
    }
}
