// The layout of a recording, from its first four letters. A file with other letters counts as RIFF, whose reading
// refuses it.
#![tactic(auto)]

ghost use Rattle.std.specs.Prelude.{◌≡◌};
ghost use Rattle.file_layout.specs.Layouts.{layout_by, layout_of, is_aiff, format_bytes, samples_bytes};

use word_bytes::low_first_u32;

// RIFF WAVE (W1), its two forms past four gigabytes (W10), and AIFF (W12).
#[derive(Clone, Copy)]
pub enum Layout {
    Riff,
    Rf64,
    Bw64,
    Aiff,
}

pub fn layout_of(opening: &[u8]) -> Layout
    ensures { result ≡ layout_of opening.now }
{
    layout_by(low_first_u32(opening, 0))
}

fn layout_by(id: u32) -> Layout
    ensures { result ≡ layout_by id }
{
    if id == 0x4d52_4f46 {
        return Layout::Aiff;
    }
    if id == 0x3436_4652 {
        return Layout::Rf64;
    }
    if id == 0x3436_5742 {
        return Layout::Bw64;
    }
    Layout::Riff
}

// Whether the samples have their high byte first, which is so in AIFF only.
pub fn is_aiff(layout: Layout) -> bool
    ensures { result ≡ is_aiff layout }
{
    match layout {
        Layout::Riff => false,
        Layout::Rf64 => false,
        Layout::Bw64 => false,
        Layout::Aiff => true,
    }
}

// How many of the first bytes of `fmt ` or `COMM` are read, and how many of `data` or `SSND`.
pub fn format_bytes(layout: Layout) -> usize
    ensures { result ≡ format_bytes layout }
{
    if is_aiff(layout) { 18 } else { 40 }
}

pub fn samples_bytes(layout: Layout) -> usize
    ensures { result ≡ samples_bytes layout }
{
    if is_aiff(layout) { 8 } else { 0 }
}
