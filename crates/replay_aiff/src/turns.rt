// A file read step by step, as a program reads one that is too long to be held: it never has more than a few of its
// bytes.
use aiff::Found;
use riff_chunks::{Walked, Walking, begin};
use word_bytes::part;

// No file of the list has more chunks; a step after the last chunk changes nothing.
const MOST: usize = 64;

pub fn by_turns(file: &[u8]) -> Found {
    let started = aiff_turns::start(part(file, 0, 12), file.len());
    if started.refusal != 0 {
        return Found::Refused(started.refusal);
    }
    let walked = walk(file, started.end).seen;
    finish(file, started.end, walked)
}

fn walk(file: &[u8], end: usize) -> Walking {
    (0..MOST).fold(begin(end), |walking, _| {
        let next = end.saturating_sub(walking.left);
        aiff_turns::turn(walking, end, part(file, next, 8))
    })
}

fn finish(file: &[u8], end: usize, walked: Walked) -> Found {
    let comm = walked.format;
    let ssnd = walked.samples;
    let c = part(file, comm.body, comm.size.min(18));
    let s = part(file, ssnd.body, ssnd.size.min(8));
    aiff_turns::finish(walked, end, c, s)
}
