// The head and the tail of a picture.
ghost use Rattle.std.specs.Prelude.{◌≡◌, length};
ghost use Rattle.text.specs.Text.{put_at, place_after};
ghost use Rattle.picture.specs.Page.{title_text, size_text, head_text, tail_text};

use crate::bars::put_number;
use crate::legend::{put_legend, put_scales};
use crate::names::put_escaped;

fn put_title(out: &mut [u8], at: usize, first: &[u8], second: &[u8]) -> usize
    ensures value { result ≡ place_after (length out.old) at
        (title_text first.now second.now) }
    ensures out_after { out.new ≡ put_at out.old at
        (title_text first.now second.now) }
{
    let one = text::put(
        out,
        at,
        b"<text x=\"90\" y=\"30\" font-size=\"18\">How far ",
    );
    let two = put_escaped(out, one, first);
    let three = text::put(out, two, b" and ");
    let four = put_escaped(out, three, second);
    text::put(out, four, b" differ</text>\n")
}

fn put_size(out: &mut [u8], at: usize, channels: u8) -> usize
    ensures value { result ≡ place_after (length out.old) at (size_text channels) }
    ensures out_after { out.new ≡ put_at out.old at (size_text channels) }
{
    let height = channels as u64 * 300 + 130;
    let one = put_number(
        out,
        at,
        b"<svg xmlns=\"http://www.w3.org/2000/svg\" viewBox=\"0 0 1160 ",
        height,
    );
    put_number(out, one, b"\" width=\"1160\" height=\"", height)
}

// Puts the beginning of a picture with so many channels.
pub fn put_head(out: &mut [u8], at: usize, channels: u8, first: &[u8], second: &[u8]) -> usize
    ensures value { result ≡ place_after (length out.old) at
        (head_text channels first.now second.now) }
    ensures out_after { out.new ≡ put_at out.old at
        (head_text channels first.now second.now) }
{
    let one = put_size(out, at, channels);
    let two = text::put(
        out,
        one,
        b"\" font-family=\"sans-serif\" font-size=\"14\">\n",
    );
    let three = text::put(
        out,
        two,
        b"<rect width=\"100%\" height=\"100%\" fill=\"#fff\"/>\n",
    );
    let four = put_title(out, three, first, second);
    let five = put_legend(out, four);
    put_scales(out, five)
}

pub fn put_tail(out: &mut [u8], at: usize) -> usize
    ensures value { result ≡ place_after (length out.old) at tail_text }
    ensures out_after { out.new ≡ put_at out.old at tail_text }
{
    text::put(out, at, b"</svg>\n")
}
