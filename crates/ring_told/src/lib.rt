// What a tap of a lent ring is: held with its value, not yet written, ahead of the newest sample, or overwritten (W7a).
// It stands beside `ring`, whose `tap` gives the value alone, so that a reading that does not need the case pays
// nothing.
#![tactic(auto)]

mod single; // the same for samples of single precision

ghost use Rattle.std.specs.Prelude.{◌≡◌};
ghost use Rattle.ring.specs.Taps.{tap_at};
ghost use Rattle.ring_told.specs.Told.{told_of};

pub use single::told_f32;

#[derive(Clone, Copy)]
pub enum Tap<T> {
    Held(T),
    Unwritten,
    Ahead,
    Overwritten,
}

// Which of the four a tap is, in a ring that has accepted `count` samples (K2).
pub fn told(source: &[f64], count: u64, index: i64) -> Tap<f64>
    ensures { result ≡ told_of (tap_at source.now count index) }
{
    if index < 0 {
        return Tap::Unwritten;
    }
    let k = index as u64;
    if count <= k {
        return Tap::Ahead;
    }
    if count - 1 - k >= source.len() as u64 {
        return Tap::Overwritten;
    }
    let at = ring::place(k, source.len());
    Tap::Held(source[at])
}
