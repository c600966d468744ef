// The absent taps of one call of a reader, computed beside it from the count before the call and the count after it
// (W7c). An accepted call raises the count by one, and a refused call leaves it as it was.
#![tactic(auto)]

ghost use Rattle.std.specs.Prelude.{◌≡◌};
ghost use Rattle.variable_delay.specs.Reader.{position_of};
ghost use Rattle.told_call.specs.Told.{counted_of};

use absent_taps::Absent;
use constants::LIMIT;

// The position that a call reads. A count below 2^36, as every reader's is, is cast as the reader casts it, so that the
// compiler works the position out once for both; any other count takes the longer way.
fn position_of(before: u64, delay: f64) -> f64
    ensures { result ≡ position_of before delay }
{
    if before < LIMIT {
        return (before as i64) as f64 - delay;
    }
    std::num::nearest_u64_to_f64(before) - delay
}

// The numbers of absent taps among those that a call read, three zeros if it was refused. `len` is the length of its
// ring.
pub fn of_call(len: usize, before: u64, after: u64, delay: f64, taps: u64) -> Absent
    ensures { result ≡ counted_of len before after delay taps }
{
    if before == after {
        return absent_taps::nothing();
    }
    absent_taps::missing(len, after, position_of(before, delay), taps)
}
