// How many of a reading's taps are absent, by kind, in constant time (W7d, W7e): not yet written, ahead of the newest,
// overwritten. Every kernel reads n consecutive taps, the first of which is n / 2 - 1 before the integer part of the
// position, so it is enough to know how many of them lie below a few bounds.
#![tactic(auto)]

mod counting; // where the taps start, and how many lie below a bound

ghost use Rattle.std.specs.Prelude.{◌≡◌};
ghost use Rattle.ring.specs.Length.{zeros};
ghost use Rattle.absent_taps.specs.Absent.{none, absent_at};

use counting::{below, first, less};

#[derive(Clone, Copy)]
pub struct Absent {
    pub unwritten: u64,
    pub ahead: u64,
    pub overwritten: u64,
}

// A refused call reads no tap, so its numbers are zeros (W7h).
pub fn nothing() -> Absent
    ensures { result ≡ none }
{
    Absent {
        unwritten: 0,
        ahead: 0,
        overwritten: 0,
    }
}

// The absent taps among those read at a position, in a ring of length `len` that has accepted `count` samples. Where a
// tap lies does not depend on what the ring holds, so its length is enough (`by_length` in proofs/Laws.antt).
pub fn missing(len: usize, count: u64, position: f64, taps: u64) -> Absent
    ensures { result ≡ absent_at (zeros len) count position taps }
{
    let at = first(integer_part::floor(position), less(taps / 2, 1));
    let oldest = less(count, len as u64);
    let unwritten = below(at.low, at.from, 0, taps);
    let gone = below(at.low, at.from, oldest, taps);
    let written = below(at.low, at.from, count, taps);
    Absent {
        unwritten: unwritten,
        ahead: less(taps, written),
        overwritten: less(gone, unwritten),
    }
}
