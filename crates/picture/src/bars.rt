// The bars of a stretch.
ghost use Rattle.std.specs.Prelude.{◌≡◌, ◌≤◌, ◌^◌, length};
ghost use Rattle.text.specs.Text.{put_at, place_after};
ghost use Rattle.picture.specs.Bars.{bits_of, number_text, edge, bar_text, stretch_text};

// The number of binary digits of n.
pub fn bits(n: u32) -> u32
    ensures { result ≡ bits_of n }
{
    32 - u32::leading_zeros(n)
}

pub(crate) fn put_number(out: &mut [u8], at: usize, before: &[u8], n: u64) -> usize
    ensures value { result ≡ place_after (length out.old) at (number_text before.now n) }
    ensures out_after { out.new ≡ put_at out.old at (number_text before.now n) }
{
    let to = text::put(out, at, before);
    text::put_decimal(out, to, n)
}

// The place where stretch k of n begins.
fn start(k: u64, n: u64) -> u64
    requires { k ≤ 2 ^ 32 }
    ensures { result ≡ edge k n }
{
    if n == 0 {
        return 0;
    }
    k * 1000 / n
}

fn put_bar(out: &mut [u8], at: usize, opening: &[u8], k: u32, n: u32, digits: u32) -> usize
    ensures value { result ≡ place_after (length out.old) at (bar_text opening.now k n digits) }
    ensures out_after { out.new ≡ put_at out.old at (bar_text opening.now k n digits) }
{
    let from = start(k as u64, n as u64);
    let width = start(k as u64 + 1, n as u64) - from;
    let first = put_number(out, at, opening, from);
    let second = put_number(out, first, b"\" width=\"", width);
    let third = put_number(out, second, b"\" height=\"", digits as u64 * 10);
    text::put(out, third, b"\"/>")
}

// Puts stretch k of n, counted from 0: the bars of its largest sample and of its largest difference.
pub fn put_stretch(out: &mut [u8], at: usize, k: u32, n: u32, sample: u32, difference: u32) -> usize
    ensures value { result ≡ place_after (length out.old) at (stretch_text k n sample difference) }
    ensures out_after { out.new ≡ put_at out.old at (stretch_text k n sample difference) }
{
    let light = bits(sample);
    let dark = bits(difference);
    let to = put_bar(out, at, b"<rect fill=\"#c4c4c4\" x=\"", k, n, light);
    let end = put_bar(out, to, b"<rect fill=\"#000\" x=\"", k, n, dark);
    text::put(out, end, b"\n")
}
