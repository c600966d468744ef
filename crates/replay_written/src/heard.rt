// A call from standard input: six words of sixteen hex digits, then a word for each sample, none for a header, with a
// blank behind each, and the end of the line.
ghost use Rattle.std.specs.Prelude.{◌≤◌};

use replay_lines::within;
use streams::read_full;
use word_bytes::word_at;

// The call that a line describes.
#[derive(Clone, Copy)]
pub struct Heard {
    pub kind: u8,
    pub channels: u8,
    pub rate: u32,
    pub room: usize,
    pub what: u8,
    pub count: usize,
}

// No call of the list has more samples than this.
const MOST: usize = 64;

// Reads the call of the next line, if the line is whole; the patterns of its samples go into a lent array.
pub fn hear(rt: &HostRuntime, words: &mut [u64; 64]) -> Option<Heard> {
    let mut head = [0u8; 102];
    let told = read_full(rt, &mut head);
    let what = (word_at(&head, 68) % 0x100) as u8;
    let count = word_at(&head, 85) as usize;
    let rest = 17 * samples(what, count) + 1;
    let mut text = [0u8; 1089];
    let got = read_full(rt, &mut text[..rest]);
    put_words(&text, words);
    if told != 102 || got != rest {
        return None;
    }
    Some(Heard {
        kind: (word_at(&head, 0) % 0x100) as u8,
        channels: (word_at(&head, 17) % 0x100) as u8,
        rate: (word_at(&head, 34) % 0x1_0000_0000) as u32,
        room: word_at(&head, 51) as usize,
        what,
        count,
    })
}

// The number of sample words that follow the first six words.
fn samples(what: u8, count: usize) -> usize
    ensures { result ≤ 64 }
{
    if what > 1 { 0 } else { within(count, MOST) }
}

fn put_words(text: &[u8; 1089], words: &mut [u64; 64]) {
    for (k, word) in words.iter_mut().enumerate() {
        *word = word_at(text, 17 * k);
    }
}
