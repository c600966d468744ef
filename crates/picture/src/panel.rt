// A channel's panel.
ghost use Rattle.std.specs.Prelude.{◌≡◌, length};
ghost use Rattle.text.specs.Text.{put_at, place_after};
ghost use Rattle.picture.specs.Panel.{panel_text, panel_end_text};

use crate::axes::{put_decibels, put_grid, put_labels, put_times};
use crate::bars::put_number;

// Puts the beginning of a channel's panel. The foot of its bars is 300 units below that of the channel before.
pub fn put_panel(out: &mut [u8], at: usize, channel: u8, frames: u64, rate: u32) -> usize
    ensures value { result ≡ place_after (length out.old) at (panel_text channel frames rate) }
    ensures out_after { out.new ≡ put_at out.old at (panel_text channel frames rate) }
{
    let one = put_number(
        out,
        at,
        b"<g transform=\"translate(90 ",
        channel as u64 * 300 + 90,
    );
    let two = put_number(
        out,
        one,
        b")\">\n<text x=\"0\" y=\"-252\" font-weight=\"bold\">channel ",
        channel as u64,
    );
    let three = text::put(
        out,
        two,
        b"</text>\n<text x=\"-10\" y=\"-252\" text-anchor=\"end\">bits</text>\n",
    );
    let four = put_labels(out, three);
    let five = put_decibels(out, four);
    let six = put_times(out, five, frames, rate);
    text::put(out, six, b"<g transform=\"scale(1 -1)\">\n")
}

// Puts the end of a panel. Its lines and axes come last, so that they are drawn over the bars.
pub fn put_panel_end(out: &mut [u8], at: usize) -> usize
    ensures value { result ≡ place_after (length out.old) at panel_end_text }
    ensures out_after { out.new ≡ put_at out.old at panel_end_text }
{
    let one = text::put(out, at, b"</g>\n");
    let two = put_grid(out, one);
    let three = text::put(out, two, b"<path fill=\"none\" stroke=\"#000\" ");
    text::put(
        out,
        three,
        b"d=\"M0 -240V6M0 0H1000M500 0V6M1000 0V6\"/>\n</g>\n",
    )
}
