// What the programs that replay a stored list share (O5).
// A line is a letter, a mark beside it and three words of sixteen hex digits with a blank before each. Here are also
// the word for a refusal, and how much of a buffer is lent.
#![tactic(auto)]

ghost use Rattle.std.specs.Prelude.{◌≡◌, ◌+◌, ◌≤◌, min};
ghost use Rattle.replay_lines.specs.Lines.{line_of, heard_of, table_part};

use word_bytes::word_at;

#[derive(Clone, Copy)]
pub struct Line {
    pub letter: u8,
    pub mark: u8,
    pub a: u64,
    pub b: u64,
    pub c: u64,
}

pub fn line_of(text: &[u8; 53]) -> Line
    ensures { result ≡ line_of text.now }
{
    Line {
        letter: text[0],
        mark: text[1],
        a: word_at(text, 2),
        b: word_at(text, 19),
        c: word_at(text, 36),
    }
}

// What a read of at most 53 bytes gave: a line, if there were 53.
#[derive(Drop)]
pub struct Heard {
    pub whole: bool,
    pub line: Line,
}

pub fn line_heard(n: usize, text: &[u8; 53]) -> Heard
    ensures { result ≡ heard_of n text.now }
{
    Heard {
        whole: n == 53,
        line: line_of(text),
    }
}

// The word for a refusal is not an answer of the original and cannot be mistaken for one.
pub fn refused(no: u8) -> u64
    ensures { result ≡ 18446744073709551360 + no }
{
    0xffff_ffff_ffff_ff00 + no as u64
}

// As much of a buffer as is needed, but no more than there is.
pub fn within(need: usize, room: usize) -> usize
    ensures value { result ≡ min need room }
    ensures upper_bound { result ≤ room }
{
    need.min(room)
}

// How much of a buffer the table with these taps and phases takes; all of it if they are out of range, so that no
// product can overflow.
pub fn table_part(taps: usize, phases: usize, room: usize) -> usize
    ensures value { result ≡ table_part taps phases room }
    ensures upper_bound { result ≤ room }
{
    if taps > 128 {
        return room;
    }
    if phases > 4096 {
        return room;
    }
    within((phases + 1) * taps, room)
}
