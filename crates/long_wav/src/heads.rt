// W10. The walk over the chunks by their heads, as far as these lie in the lent bytes.
ghost use Rattle.std.specs.Prelude.{◌≡◌, ◌+◌, ◌<◌, length};
ghost use Rattle.riff_chunks.specs.Walk.{riff_sought, walked_from, walk_to};
ghost use Rattle.long_wav.specs.Reading.{chunk_in, missing};

use riff_chunks::{Chunk, Walked, riff_sought};
use true_sizes::true_size;
use word_bytes::low_first_u32;

// The place behind the first head that is not lent, 0 for none, and what was seen before it.
#[derive(Clone, Copy)]
pub(crate) struct Reached {
    pub asked: usize,
    pub seen: Walked,
}

pub(crate) fn heads_of(prefix: &[u8], end: usize) -> Reached
    ensures asked_value { result.asked ≡ missing (length prefix.now)
        (walked_from riff_sought (chunk_in prefix.now) end 12) }
    ensures seen_value { result.asked ≡ 0 → result.seen ≡ walk_to riff_sought (chunk_in prefix.now) end }
{
    let sought = riff_sought();
    let mut walking = riff_chunks::begin(end);
    // By hand: the size in a head says where the next one stands, so what is left ends the loop, and no count does.
    while walking.left >= 8 {
        let at = end - walking.left;
        if prefix.len() < at + 8 {
            return Reached {
                asked: at + 8,
                seen: walking.seen,
            };
        }
        let c = chunk_at(prefix, at);
        walking = riff_chunks::turn(walking, sought, c);
    }
    Reached {
        asked: 0,
        seen: walking.seen,
    }
}

fn chunk_at(prefix: &[u8], at: usize) -> Chunk
    requires { at + 8 < 0x1_0000_0000_0000_0000 }
    ensures { result ≡ chunk_in prefix.now at }
{
    let id = low_first_u32(prefix, at);
    let field = low_first_u32(prefix, at + 4);
    Chunk {
        id,
        body: at + 8,
        size: true_size(prefix, id, field),
    }
}
