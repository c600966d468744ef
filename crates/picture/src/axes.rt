// The lines and labels of a channel's panel.
ghost use Rattle.std.specs.Prelude.{◌≡◌, length};
ghost use Rattle.text.specs.Text.{put_at, place_after};
ghost use Rattle.picture.specs.Panel.{grid_text, labels_text, decibels_text, times_text};

use report_lines::put_length;

// A dotted line at every fourth bit.
pub(crate) fn put_grid(out: &mut [u8], at: usize) -> usize
    ensures value { result ≡ place_after (length out.old) at grid_text }
    ensures out_after { out.new ≡ put_at out.old at grid_text }
{
    let one = text::put(
        out,
        at,
        b"<path fill=\"none\" stroke=\"#888\" stroke-dasharray=\"2 4\" d=\"",
    );
    text::put(
        out,
        one,
        b"M0 -40H1000M0 -80H1000M0 -120H1000M0 -160H1000M0 -200H1000M0 -240H1000\"/>\n",
    )
}

// The number of bits beside each line.
pub(crate) fn put_labels(out: &mut [u8], at: usize) -> usize
    ensures value { result ≡ place_after (length out.old) at labels_text }
    ensures out_after { out.new ≡ put_at out.old at labels_text }
{
    let one = text::put(
        out,
        at,
        b"<g text-anchor=\"end\">\n<text x=\"-10\" y=\"-235\">24</text>\n",
    );
    let two = text::put(
        out,
        one,
        b"<text x=\"-10\" y=\"-195\">20</text>\n<text x=\"-10\" y=\"-155\">16</text>\n",
    );
    let three = text::put(
        out,
        two,
        b"<text x=\"-10\" y=\"-115\">12</text>\n<text x=\"-10\" y=\"-75\">8</text>\n",
    );
    text::put(
        out,
        three,
        b"<text x=\"-10\" y=\"-35\">4</text>\n<text x=\"-10\" y=\"5\">0</text>\n</g>\n",
    )
}

// The same in decibels relative to full scale, 2^23.
pub(crate) fn put_decibels(out: &mut [u8], at: usize) -> usize
    ensures value { result ≡ place_after (length out.old) at decibels_text }
    ensures out_after { out.new ≡ put_at out.old at decibels_text }
{
    let one = text::put(
        out,
        at,
        b"<text x=\"1010\" y=\"-252\">dB</text>\n<text x=\"1010\" y=\"-235\">+6</text>\n",
    );
    let two = text::put(
        out,
        one,
        b"<text x=\"1010\" y=\"-195\">-18</text>\n<text x=\"1010\" y=\"-155\">-42</text>\n",
    );
    let three = text::put(
        out,
        two,
        b"<text x=\"1010\" y=\"-115\">-66</text>\n<text x=\"1010\" y=\"-75\">-90</text>\n",
    );
    text::put(out, three, b"<text x=\"1010\" y=\"-35\">-114</text>\n")
}

// The time at the beginning, in the middle and at the end.
pub(crate) fn put_times(out: &mut [u8], at: usize, frames: u64, rate: u32) -> usize
    ensures value { result ≡ place_after (length out.old) at (times_text frames rate) }
    ensures out_after { out.new ≡ put_at out.old at (times_text frames rate) }
{
    let one = text::put(
        out,
        at,
        b"<g text-anchor=\"middle\">\n<text x=\"0\" y=\"22\">",
    );
    let two = put_length(out, one, 0, rate);
    let three = text::put(out, two, b"</text>\n<text x=\"500\" y=\"22\">");
    let four = put_length(out, three, frames / 2, rate);
    let five = text::put(out, four, b"</text>\n<text x=\"1000\" y=\"22\">");
    let six = put_length(out, five, frames, rate);
    text::put(out, six, b"</text>\n</g>\n")
}
