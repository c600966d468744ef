// K2. Where a tap stands, and what it reads.
ghost use Rattle.std.specs.Prelude.{◌≡◌};
ghost use Rattle.ring.specs.Taps.{tap_of};
ghost use Rattle.ring.specs.Quick.{start_of};

use crate::{Start, absent, place};

// Whether one tap is held, and where it stands. This is a run of one tap with one test fewer.
pub fn tap_place(len: usize, count: u64, index: i64) -> Start
    ensures { result ≡ start_of len count index 1 }
{
    if index < 0 {
        return absent();
    }
    let k = index as u64;
    if count <= k {
        return absent();
    }
    if count - 1 - k >= len as u64 {
        return absent();
    }
    Start {
        held: true,
        place: place(k, len),
    }
}

// K2. A tap of a ring that has accepted `count` samples; one that is not held reads zero.
pub fn tap(source: &[f64], count: u64, index: i64) -> f64
    ensures { result ≡ tap_of source.now count index }
{
    let start = tap_place(source.len(), count, index);
    let at = start.place;
    if start.held {
        return source[at];
    }
    0.0
}
