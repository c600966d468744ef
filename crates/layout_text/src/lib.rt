// The layout of a recording in words, if it is not RIFF, written into a lent slice at a place as `text::put` does.
#![tactic(auto)]

ghost use Rattle.std.specs.Prelude.{◌≡◌, length};
ghost use Rattle.text.specs.Text.{put_at, place_after};
ghost use Rattle.layout_text.specs.LayoutText.{layout_text};

use file_layout::Layout;

// Writes `AIFF, `, `RF64, ` or `BW64, `, and nothing for RIFF.
#[tactic(auto, unfolding(text::specs::Text::ascii))]
pub fn put_layout(out: &mut [u8], at: usize, layout: Layout) -> usize
    ensures value { result ≡ place_after (length out.old) at (layout_text layout) }
    ensures out_after { out.new ≡ put_at out.old at (layout_text layout) }
{
    match layout {
        Layout::Riff => text::put(out, at, b""),
        Layout::Rf64 => text::put(out, at, b"RF64, "),
        Layout::Bw64 => text::put(out, at, b"BW64, "),
        Layout::Aiff => text::put(out, at, b"AIFF, "),
    }
}
