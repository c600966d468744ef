// A header from standard input: the length of the file in sixteen hex digits, a blank, the number of lent bytes in
// four, a blank, two digits for each byte, and the end of the line.
use replay_lines::within;
use streams::read_full;
use word_bytes::word_at;

// The length of the file, and the number of lent bytes.
#[derive(Clone, Copy)]
pub struct Heard {
    pub length: usize,
    pub bytes: usize,
}

// No header of the list is longer than this.
const LONGEST: usize = 512;

// Reads the header of the next line into a lent slice, if the line is whole.
pub fn hear(rt: &HostRuntime, prefix: &mut [u8]) -> Option<Heard> {
    let mut head = [0u8; 21];
    let told = read_full(rt, &mut head);
    let bytes = within(word_at(&head, 17) as usize, LONGEST);
    let rest = 2 * bytes + 2;
    // This is sixteen bytes more than the longest rest of a line, so that a word can be read at every place.
    let mut text = [0u8; 1042];
    let got = read_full(rt, &mut text[..rest]);
    put_bytes(&text, prefix);
    if told == 21 && got == rest {
        Some(Heard {
            length: word_at(&head, 0) as usize,
            bytes,
        })
    } else {
        None
    }
}

// A word of sixteen digits is read at the place of each byte, and its first two digits are the byte.
fn put_bytes(text: &[u8; 1042], prefix: &mut [u8]) {
    for (k, byte) in prefix.iter_mut().enumerate().take(LONGEST) {
        *byte = (word_at(text, 2 * k + 1) / 0x100_0000_0000_0000) as u8;
    }
}
