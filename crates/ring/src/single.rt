// 000's RingViewF32: `clear` and `tap` for f32 samples.
ghost use Rattle.std.specs.Prelude.{◌≡◌, length};
ghost use Rattle.ring.specs.Length.{zeros};
ghost use Rattle.ring.specs.Taps.{tap_of};

use crate::taps::tap_place;

pub fn clear_f32(ring: &mut [f32])
    ensures { ring.new ≡ zeros (length ring.old) }
{
    ring.fill(0.0);
}

pub fn tap_f32(source: &[f32], count: u64, index: i64) -> f32
    ensures { result ≡ tap_of source.now count index }
{
    let start = tap_place(source.len(), count, index);
    let at = start.place;
    if start.held {
        return source[at];
    }
    0.0
}
