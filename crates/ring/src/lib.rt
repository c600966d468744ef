// A lent ring of samples: how long it must be, where a sample stands in it, and what a tap reads.
// It stands for the original's RingView, RingViewF32 and SliceSource (000).
#![tactic(auto)]

mod single; // the same for f32 samples
mod taps; // where a tap stands, and what it reads

ghost use Rattle.std.specs.Prelude.{◌≡◌, false, cond, length};
ghost use Rattle.ring.specs.Length.{settings_ok, length_for, zeros};
ghost use Rattle.ring.specs.Places.{position_ok};
ghost use Rattle.ring.specs.Quick.{place_of, start_of};

use constants::LIMIT_F64;
pub use single::{clear_f32, tap_f32};
pub use taps::tap;

// G1. The ring length that the settings need, or 0 if they are out of range. Each setting is tested before it is added,
// so that the sum cannot overflow.
pub fn length_for(maximum: usize, margin: usize) -> usize
    ensures { result ≡ cond (settings_ok maximum margin) (length_for maximum margin) 0 }
{
    if maximum > 0x100_0000 {
        return 0;
    }
    if margin > 0x100_0000 {
        return 0;
    }
    let need: u64 = (maximum + 2 * margin + 8) as u64;
    if need > 0x100_0000 {
        return 0;
    }
    let last: u64 = 63 - u64::leading_zeros(need - 1) as u64;
    (2u64 << last) as usize
}

// K1. Zeroes a ring, as opening and reset do.
pub fn clear(ring: &mut [f64])
    ensures { ring.new ≡ zeros (length ring.old) }
{
    ring.fill(0.0);
}

// K1. An index modulo the length. A reader's ring has a power of two as its length, so a mask is enough; in a slice
// that holds all samples so far the index is below the length. Only in other cases is there a division.
pub fn place(index: u64, len: usize) -> usize
    ensures { result ≡ place_of index len }
{
    let n = len as u64;
    if n == 0 {
        return 0;
    }
    if n & (n - 1) == 0 {
        return (index & (n - 1)) as usize;
    }
    if index < n {
        return index as usize;
    }
    (index % n) as usize
}

#[derive(Clone, Copy)]
pub struct Start {
    pub held: bool,
    pub place: usize,
}

// The answer where not all taps of a run are held.
fn absent() -> Start
    ensures { result ≡ record { held = false; place = 0 } }
{
    Start {
        held: false,
        place: 0,
    }
}

// Whether all taps of a run are held, and where the first stands. If so, a kernel's fast path reads them without a test
// for each.
pub fn run_start(len: usize, count: u64, index: i64, taps: u64) -> Start
    ensures { result ≡ start_of len count index taps }
{
    if index < 0 {
        return absent();
    }
    let k = index as u64;
    if count < k {
        return absent();
    }
    let back = count - k;
    if back < taps {
        return absent();
    }
    if back > len as u64 {
        return absent();
    }
    Start {
        held: true,
        place: place(k, len),
    }
}

// G3. A position is finite and lies from -2^36 to 2^36.
pub fn position_ok(position: f64) -> bool
    ensures { result ≡ position_ok position }
{
    magnitude::within(position, -LIMIT_F64, LIMIT_F64)
}
