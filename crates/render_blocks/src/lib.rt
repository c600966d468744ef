// A block of samples rendered in place: headerless binary32, low byte first (X2).
#![tactic(auto)]

ghost use Rattle.std.specs.Prelude.{◌≡◌, ◌*◌, ◌/◌, length};
ghost use Rattle.std.specs.Float.Ieee as Ieee;
ghost use Rattle.std.specs.Float.{binary32};
ghost use Rattle.word_bytes.specs.Bytes.{low_bytes, bytes_value};
ghost use Rattle.render_samples.specs.Samples.{held_of, after_sample, sample_for};
ghost use Rattle.render_blocks.specs.Blocks.{after_block, rendered_of};

use render_samples::{Rendering, step};

// The state after a block, and how many of its bytes are answers now.
#[derive(Drop)]
pub struct Written {
    pub state: Rendering,
    pub length: usize,
}

// Renders one sample in place, as its four bytes.
fn put_sample<'a>(
    state: Rendering,
    ring: &mut [f32],
    table: &'a [f32],
    word: &mut [u8],
) -> Rendering
    requires { length word.old ≡ 4 }
    ensures value { result ≡ (after_sample table.now (held_of state ring.old)
        (Ieee.of_bits binary32 (bytes_value word.old))).state }
    ensures ring_after { ring.new ≡ (after_sample table.now (held_of state ring.old)
        (Ieee.of_bits binary32 (bytes_value word.old))).ring }
    ensures word_after { word.new ≡ low_bytes 4 (Ieee.to_bits binary32
        (sample_for table.now (held_of state ring.old)
        (Ieee.of_bits binary32 (bytes_value word.old)))) }
{
    let r = step(state, ring, table, word_bytes::low_first_u32(word, 0));
    word_bytes::write_bytes(r.bits as u64, word);
    r.state
}

// Renders the whole samples of a block in place, one after the other. At its end a part of fewer than 4 bytes stays as
// it was.
pub fn render_block<'a>(
    state: Rendering,
    ring: &mut [f32],
    table: &'a [f32],
    block: &mut [u8],
) -> Written
    ensures state_value { result.state ≡
        (after_block table.now (held_of state ring.old) block.old).state }
    ensures length_value { result.length ≡ length block.old / 4 * 4 }
    ensures ring_after { ring.new ≡
        (after_block table.now (held_of state ring.old) block.old).ring }
    ensures block_after { block.new ≡
        rendered_of table.now (held_of state ring.old) block.old }
{
    let mut s = state;
    let count = block.len() / 4;
    for k in 0..count {
        let at = k * 4;
        s = put_sample(s, ring, table, &mut block[at..at + 4]);
    }
    Written {
        state: s,
        length: count * 4,
    }
}
