// The lines of the program `trace`: the cubic reader at the delay 1.5, over samples as bytes (X1).
#![tactic(auto)]

ghost use Rattle.std.specs.Prelude.{◌≡◌, length};
ghost use Rattle.text.specs.Text.{put_at, place_after};
ghost use Rattle.trace_lines.specs.Lines.{answer_text, line_of, after_block, text_of};

use answer::Answer;
use bit_patterns::{bits_of, float_of};
use variable_delay::VariableDelay;

// The state of the reader after the samples, and the place where their lines end.
#[derive(Clone, Copy)]
pub struct Traced {
    pub state: VariableDelay,
    pub length: usize,
}

fn put_answer(out: &mut [u8], at: usize, answer: Answer) -> usize
    ensures value { result ≡ place_after (length out.old) at (answer_text answer) }
    ensures out_after { out.new ≡ put_at out.old at (answer_text answer) }
{
    match answer {
        Answer::Sample(y) => {
            let digits = word_bytes::hex16(bits_of(y));
            text::put(out, at, &digits)
        }
        Answer::Refused(no) => {
            let to = text::put(out, at, b"refused ");
            text::put_decimal(out, to, no as u64)
        }
    }
}

pub fn put_line(out: &mut [u8], at: usize, count: u64, answer: Answer) -> usize
    ensures value { result ≡ place_after (length out.old) at (line_of count answer) }
    ensures out_after { out.new ≡ put_at out.old at (line_of count answer) }
{
    let blank = text::put_decimal(out, at, count);
    let to = text::put(out, blank, b" ");
    let end = put_answer(out, to, answer);
    text::put(out, end, b"\n")
}

// Puts a line for each whole sample of a block, from the start of `out` on.
pub fn put_lines(state: VariableDelay, ring: &mut [f64], block: &[u8], out: &mut [u8]) -> Traced
    ensures state_value { result.state ≡ (after_block state ring.old block.now).state }
    ensures length_value { result.length ≡
        place_after (length out.old) 0 (text_of state ring.old block.now) }
    ensures ring_after { ring.new ≡ (after_block state ring.old block.now).ring }
    ensures out_after { out.new ≡
        put_at out.old 0 (text_of state ring.old block.now) }
{
    let mut s = state;
    let mut to: usize = 0;
    for sample in block.chunks_exact(8) {
        let x = float_of(word_bytes::low_first(sample, 0));
        let count = s.accepted;
        let r = cubic_delay::process_sample(s, ring, x, 1.5);
        let a = r.answer;
        s = r.state;
        to = put_line(out, to, count, a);
    }
    Traced {
        state: s,
        length: to,
    }
}
