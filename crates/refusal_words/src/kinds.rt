// The words of refusal 13: what a file says of its samples, and how to convert it to a kind that is read.
ghost use Rattle.std.specs.Prelude.{◌≡◌, length};
ghost use Rattle.text.specs.Text.{put_at, place_after};
ghost use Rattle.refusal_words.specs.Kinds.{tag_text, frame_text, kind_text, remix_text, advice_text, kind_refusal};

use report_lines::put_count;
use text::put;

fn put_tag(out: &mut [u8], at: usize, tag: u32) -> usize
    ensures value { result ≡ place_after (length out.old) at (tag_text tag) }
    ensures out_after { out.new ≡ put_at out.old at (tag_text tag) }
{
    if tag == 0 {
        return put(out, at, b"a kind without a tag");
    }
    if tag == 65534 {
        return put(out, at, b"a wrapped kind (tag 65534)");
    }
    let one = put(out, at, b"tag ");
    text::put_decimal(out, one, tag as u64)
}

fn put_frame(out: &mut [u8], at: usize, block: u32) -> usize
    ensures value { result ≡ place_after (length out.old) at (frame_text block) }
    ensures out_after { out.new ≡ put_at out.old at (frame_text block) }
{
    if block == 0 {
        return put(out, at, b"");
    }
    let one = put(out, at, b", ");
    let two = put_count(out, one, block as u64, b"byte");
    put(out, two, b" a frame")
}

fn put_kind(out: &mut [u8], at: usize, tag: u32, channels: u32, block: u32, bits: u32) -> usize
    ensures value { result ≡ place_after (length out.old) at (kind_text tag channels block bits) }
    ensures out_after { out.new ≡ put_at out.old at (kind_text tag channels block bits) }
{
    let one = put_tag(out, at, tag);
    let two = put(out, one, b", ");
    let three = put_count(out, two, bits as u64, b"bit");
    let four = put(out, three, b", ");
    let five = put_count(out, four, channels as u64, b"channel");
    put_frame(out, five, block)
}

fn put_remix(out: &mut [u8], at: usize, channels: u32) -> usize
    ensures value { result ≡ place_after (length out.old) at (remix_text channels) }
    ensures out_after { out.new ≡ put_at out.old at (remix_text channels) }
{
    if 2 < channels {
        return put(out, at, b" remix 1 2\n");
    }
    put(out, at, b"\n")
}

fn put_advice(out: &mut [u8], at: usize, name: &[u8], channels: u32) -> usize
    ensures value { result ≡ place_after (length out.old) at (advice_text name.now channels) }
    ensures out_after { out.new ≡ put_at out.old at (advice_text name.now channels) }
{
    let one = put(out, at, b"; write it as such, for instance: sox -D ");
    let two = put(out, one, name);
    let three = put(out, two, b" -t wavpcm -b 24 OUT.wav");
    put_remix(out, three, channels)
}

pub(crate) fn put_refused_kind(
    out: &mut [u8],
    at: usize,
    name: &[u8],
    tag: u32,
    channels: u32,
    block: u32,
    bits: u32,
) -> usize
    ensures value { result ≡ place_after (length out.old) at
        (kind_refusal name.now tag channels block bits) }
    ensures out_after { out.new ≡ put_at out.old at
        (kind_refusal name.now tag channels block bits) }
{
    let one = put(out, at, b" is refused by 13: ");
    let two = put_kind(out, one, tag, channels, block, bits);
    let three = put(
        out,
        two,
        b": whole frames of one or two channels, PCM of 16 or 24 bits or float of 32, are read",
    );
    put_advice(out, three, name, channels)
}
