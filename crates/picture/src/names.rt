// A file's name inside XML.
ghost use Rattle.std.specs.Prelude.{◌≡◌, length};
ghost use Rattle.text.specs.Text.{put_at, place_after};
ghost use Rattle.picture.specs.Names.{escaped_byte, shown_byte, escaped_as, escaped};

fn put_byte(out: &mut [u8], at: usize, b: u8) -> usize
    ensures value { result ≡ place_after (length out.old) at (escaped_byte b) }
    ensures out_after { out.new ≡ put_at out.old at (escaped_byte b) }
{
    if b == b'&' {
        return text::put(out, at, b"&amp;");
    }
    if b == b'<' {
        return text::put(out, at, b"&lt;");
    }
    if b == b'>' {
        return text::put(out, at, b"&gt;");
    }
    if b < 32 {
        return text::put(out, at, b"?");
    }
    let one = [b];
    text::put(out, at, &one)
}

fn shown(readable: bool, b: u8) -> u8
    ensures { result ≡ shown_byte readable b }
{
    if readable {
        return b;
    }
    if b < 128 { b } else { b'?' }
}

fn put_shown(out: &mut [u8], at: usize, readable: bool, b: u8) -> usize
    ensures value { result ≡ place_after (length out.old) at (escaped_byte (shown_byte readable b)) }
    ensures out_after { out.new ≡ put_at out.old at (escaped_byte (shown_byte readable b)) }
{
    let c = shown(readable, b);
    put_byte(out, at, c)
}

fn put_all(out: &mut [u8], at: usize, readable: bool, name: &[u8]) -> usize
    ensures value { result ≡ place_after (length out.old) at (escaped_as readable name.now) }
    ensures out_after { out.new ≡ put_at out.old at (escaped_as readable name.now) }
{
    let mut to = text::put(out, at, b"");
    for b in name {
        to = put_shown(out, to, readable, *b);
    }
    to
}

// Puts a name so that XML reads it back, except for the bytes that become question marks.
pub(crate) fn put_escaped(out: &mut [u8], at: usize, name: &[u8]) -> usize
    ensures value { result ≡ place_after (length out.old) at (escaped name.now) }
    ensures out_after { out.new ≡ put_at out.old at (escaped name.now) }
{
    let readable = utf8::is_utf8(name);
    put_all(out, at, readable, name)
}
