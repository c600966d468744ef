// A file from standard input: the number of its bytes in four hex digits, a blank, two digits for each byte, and the
// end of the line.
use replay_lines::within;
use streams::read_full;
use word_bytes::word_at;

// No file of the list is longer than this.
const LONGEST: usize = 512;

// Reads the file of the next line into a lent slice, and gives the number of its bytes if the line is whole.
pub fn hear(rt: &HostRuntime, file: &mut [u8]) -> Option<usize> {
    let mut count = [0u8; 4];
    let told = read_full(rt, &mut count);
    let bytes = within(word_at(&count, 0) as usize, LONGEST);
    let rest = 2 * bytes + 2;
    // This is sixteen bytes more than the longest rest of a line, so that a word can be read at every place.
    let mut text = [0u8; 1042];
    let got = read_full(rt, &mut text[..rest]);
    put_bytes(&text, file);
    if told == 4 && got == rest {
        Some(bytes)
    } else {
        None
    }
}

// A word of sixteen digits is read at the place of each byte, and its first two digits are the byte.
fn put_bytes(text: &[u8; 1042], file: &mut [u8]) {
    for (k, byte) in file.iter_mut().enumerate().take(LONGEST) {
        *byte = (word_at(text, 2 * k + 1) / 0x100_0000_0000_0000) as u8;
    }
}
