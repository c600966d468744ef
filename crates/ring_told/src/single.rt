// `told` for samples of single precision, as in 000's RingViewF32.
ghost use Rattle.std.specs.Prelude.{◌≡◌};
ghost use Rattle.ring.specs.Taps.{tap_at};
ghost use Rattle.ring_told.specs.Told.{told_f32_of};

use crate::Tap;

pub fn told_f32(source: &[f32], count: u64, index: i64) -> Tap<f32>
    ensures { result ≡ told_f32_of (tap_at source.now count index) }
{
    if index < 0 {
        return Tap::Unwritten;
    }
    let k = index as u64;
    if count <= k {
        return Tap::Ahead;
    }
    if count - 1 - k >= source.len() as u64 {
        return Tap::Overwritten;
    }
    let at = ring::place(k, source.len());
    Tap::Held(source[at])
}
