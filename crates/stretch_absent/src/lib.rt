// The absent taps of a whole stretch: W7's numbers, summed over the items done (W3g). They are computed beside the
// stretch, from its delays, so that a call that does not need them pays nothing.
#![tactic(auto)]

ghost use Rattle.std.specs.Prelude.{◌≡◌};
ghost use Rattle.stretch_absent.specs.Sums.{sums_of};

use absent_taps::Absent;
use constants::LIMIT;

// No kernel reads more taps in a reading.
const MOST: u64 = 128;

// The sums over the first `done` items of a stretch. `before` is the number of samples accepted before it, `len` the
// ring's length. For more taps than a kernel has, or more items than a reader accepts, they are three zeros.
pub fn absent_in(len: usize, before: u64, delays: &[f64], done: usize, taps: u64) -> Absent
    ensures { result ≡ sums_of len before delays.now done taps }
{
    let n = done.min(delays.len());
    if taps > MOST {
        return absent_taps::nothing();
    }
    if before > LIMIT {
        return absent_taps::nothing();
    }
    if n as u64 > LIMIT - before {
        return absent_taps::nothing();
    }
    let mut unwritten: u64 = 0;
    let mut ahead: u64 = 0;
    let mut overwritten: u64 = 0;
    for k in 0..n {
        let i = before + k as u64;
        let a = told_call::of_call(len, i, i + 1, delays[k], taps);
        unwritten += a.unwritten;
        ahead += a.ahead;
        overwritten += a.overwritten;
    }
    Absent {
        unwritten,
        ahead,
        overwritten,
    }
}
