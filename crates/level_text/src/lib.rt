// A residual's level as text, as a report shows it: `-63.2 dB`, `0.0 dB`, `+6.0 dB`, or `no difference`.
#![tactic(auto)]

ghost use Rattle.std.specs.Prelude.{◌≡◌, length};
ghost use Rattle.text.specs.Text.{put_at, place_after};
ghost use Rattle.level_text.specs.LevelText.{size_text, tenths_text, level_text};

pub fn put_level(out: &mut [u8], at: usize, level: Option<u32>) -> usize
    ensures value { result ≡ place_after (length out.old) at (level_text level) }
    ensures out_after { out.new ≡ put_at out.old at (level_text level) }
{
    match level {
        None => text::put(out, at, b"no difference"),
        Some(j) => put_tenths(out, at, j),
    }
}

// Puts the level that lies j tenths below +6.1 dB.
fn put_tenths(out: &mut [u8], at: usize, j: u32) -> usize
    ensures value { result ≡ place_after (length out.old) at (tenths_text j) }
    ensures out_after { out.new ≡ put_at out.old at (tenths_text j) }
{
    if j < 61 {
        let to = text::put(out, at, b"+");
        return put_size(out, to, 61 - j);
    }
    if 61 < j {
        let to = text::put(out, at, b"-");
        return put_size(out, to, j - 61);
    }
    put_size(out, at, 0)
}

// Puts a number of tenths with one place behind the point, without a sign.
fn put_size(out: &mut [u8], at: usize, tenths: u32) -> usize
    ensures value { result ≡ place_after (length out.old) at (size_text tenths) }
    ensures out_after { out.new ≡ put_at out.old at (size_text tenths) }
{
    let point = text::put_decimal(out, at, (tenths / 10) as u64);
    let place = text::put(out, point, b".");
    let unit = text::put_decimal(out, place, (tenths % 10) as u64);
    text::put(out, unit, b" dB")
}
