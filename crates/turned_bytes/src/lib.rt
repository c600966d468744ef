// W12. The bytes of each sample reversed, so that an AIFF's samples, which have their high byte first, stand as a WAV's
// do. A program reverses each block that it reads, and from then on handles every file as a WAV.
#![tactic(auto)]

ghost use Rattle.std.specs.Prelude.{◌≡◌, ◌+◌, ◌/◌, ◌≤◌, length};
ghost use Rattle.turned_bytes.specs.Turned.{turned_at, turned_first, turned_round};

use sample_kind::SampleKind;

// An incomplete last sample stays as it is, and so do floats, which no AIFF has.
pub fn turn_round(kind: SampleKind, bytes: &mut [u8])
    ensures { bytes.new ≡ turned_round kind bytes.old }
{
    match kind {
        SampleKind::Pcm16 => turn_each::<2>(bytes),
        SampleKind::Pcm24 => turn_each::<3>(bytes),
        SampleKind::Float32 => {}
    }
}

fn turn_each<const WIDTH: usize>(bytes: &mut [u8])
    requires { (2 ≤ WIDTH) × (WIDTH ≤ 3) }
    ensures { bytes.new ≡ turned_first WIDTH (length bytes.old / WIDTH) bytes.old }
{
    let n = bytes.len() / WIDTH;
    for k in 0..n {
        turn_one::<WIDTH>(bytes, k * WIDTH);
    }
}

// Of two or three bytes the first and the last change places.
fn turn_one<const WIDTH: usize>(bytes: &mut [u8], at: usize)
    requires width { (2 ≤ WIDTH) × (WIDTH ≤ 3) }
    requires within { at + WIDTH ≤ length bytes.old }
    ensures { bytes.new ≡ turned_at WIDTH at bytes.old }
{
    let first = bytes[at];
    bytes[at] = bytes[at + WIDTH - 1];
    bytes[at + WIDTH - 1] = first;
}
