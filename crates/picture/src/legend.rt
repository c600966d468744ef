// What a picture says about itself: the two shades and the two directions.
ghost use Rattle.std.specs.Prelude.{◌≡◌, length};
ghost use Rattle.text.specs.Text.{put_at, place_after};
ghost use Rattle.picture.specs.Page.{legend_text, scales_text};

// What the light and the dark shade mean.
pub(crate) fn put_legend(out: &mut [u8], at: usize) -> usize
    ensures value { result ≡ place_after (length out.old) at legend_text }
    ensures out_after { out.new ≡ put_at out.old at legend_text }
{
    let one = text::put(
        out,
        at,
        b"<rect x=\"90\" y=\"46\" width=\"14\" height=\"14\" fill=\"#c4c4c4\"/>\n",
    );
    let two = text::put(
        out,
        one,
        b"<text x=\"110\" y=\"58\">light: the largest sample of a stretch, in either file</text>\n",
    );
    let three = text::put(
        out,
        two,
        b"<rect x=\"480\" y=\"46\" width=\"14\" height=\"14\" fill=\"#000\"/>\n",
    );
    text::put(
        out,
        three,
        b"<text x=\"500\" y=\"58\">dark, in front: the largest difference; where it meets light they part</text>\n",
    )
}

// What the two directions of the picture mean.
pub(crate) fn put_scales(out: &mut [u8], at: usize) -> usize
    ensures value { result ≡ place_after (length out.old) at scales_text }
    ensures out_after { out.new ≡ put_at out.old at scales_text }
{
    let one = text::put(
        out,
        at,
        b"<text x=\"90\" y=\"80\">Upwards: how many bits it has, 0 for silence or no difference; ",
    );
    let two = text::put(
        out,
        one,
        b"on the right the same in decibels beside full scale.</text>\n",
    );
    let three = text::put(
        out,
        two,
        b"<text x=\"90\" y=\"98\">From left to right: time since the first frame compared, ",
    );
    text::put(out, three, b"in hours:minutes:seconds.</text>\n")
}
