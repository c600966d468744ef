// W10c. A WAV file of any length read step by step, for files that are too long to be held. `wav_opening::begin` takes
// its opening and its length, `turn` the 8 bytes at the head of each chunk that is walked, and `wav_turns::finish` the
// first 40 bytes of `fmt `. The answer is that of `long_wav::read_header_wrapped`.
#![tactic(auto)]

ghost use Rattle.std.specs.Prelude.{◌≡◌};
ghost use Rattle.long_turns.specs.Turns.{turned_by};

use riff_chunks::{Chunk, Walking, riff_sought};
use true_sizes::true_size;
use word_bytes::low_first_u32;

// One more chunk. `head` is the 8 bytes at the place `end` less what is left; if fewer than 8 are left the walk is
// over. The opening is lent again, because it has the table of sizes.
pub fn turn(opening: &[u8], walking: Walking, end: usize, head: &[u8]) -> Walking
    ensures { result ≡ turned_by opening.now walking end head.now }
{
    let left = walking.left;
    if left < 8 {
        return walking;
    }
    if end < left {
        return walking;
    }
    let at = end - left;
    let id = low_first_u32(head, 0);
    let field = low_first_u32(head, 4);
    let size = true_size(opening, id, field);
    let c = Chunk {
        id: id,
        body: at + 8,
        size: size,
    };
    riff_chunks::turn(walking, riff_sought(), c)
}
