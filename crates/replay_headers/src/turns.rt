// A header read step by step, as a program reads a file that is too long to be held: the opening, and only a few bytes
// at each step.
use riff_chunks::{Walked, Walking};
use true_sizes::{entry_count, is_long};
use wav::Found;
use wav_opening::begin;
use word_bytes::part;

// No header of the list has more chunks than this. A step behind the last chunk changes nothing.
const MOST: usize = 64;

pub fn by_turns(prefix: &[u8], length: usize) -> Found {
    let opening = opening_of(prefix);
    let begun = begin(opening, length);
    if begun.refusal != 0 {
        return Found::Refused(begun.refusal);
    }
    finish(prefix, walk(prefix, opening, begun.end).seen)
}

// The opening is the first 12 bytes, and for RF64 and BW64 also the `ds64` with its table.
fn opening_of(prefix: &[u8]) -> &[u8] {
    if is_long(prefix) {
        return part(prefix, 0, 48 + 12 * entry_count(prefix));
    }
    part(prefix, 0, 12)
}

fn walk(prefix: &[u8], opening: &[u8], end: usize) -> Walking {
    (0..MOST).fold(riff_chunks::begin(end), |walking, _| {
        let next = end.saturating_sub(walking.left);
        long_turns::turn(opening, walking, end, part(prefix, next, 8))
    })
}

fn finish(prefix: &[u8], walked: Walked) -> Found {
    let format = walked.format;
    let f = part(prefix, format.body, format.size.min(40));
    wav_turns::finish(walked, f)
}
