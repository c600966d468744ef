// The place of a byte in a text.
#![tactic(auto)]

ghost use Rattle.std.specs.Prelude.{◌≡◌, ◌≤◌, length};
ghost use Rattle.byte_marks.specs.Marks.{index_of};

// The place of the first such byte, or the end if there is none.
pub fn find(text: &[u8], byte: u8) -> usize
    ensures value { result ≡ index_of byte text.now }
    ensures upper_bound { result ≤ length text.now }
{
    text.iter().position(|c| *c == byte).unwrap_or(text.len())
}
