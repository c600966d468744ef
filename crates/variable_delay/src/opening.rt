// Opens a reader over a lent ring, and resets it.
ghost use Rattle.std.specs.Prelude.{◌≡◌, length};
ghost use Rattle.variable_delay.specs.Opening.{opened_of, ring_opened, reset_of, ring_reset};

use super::{Opened, VariableDelay};
use constants::LIMIT;

// 000's VariableDelay::new over a lent ring: refuses by 1 or 2, or zeroes the ring.
pub fn open(maximum: usize, margin: usize, ring: &mut [f64]) -> Opened
    ensures value { result ≡ opened_of maximum margin (length ring.old) }
    ensures ring_after { ring.new ≡ ring_opened maximum margin ring.old }
{
    reset(
        VariableDelay {
            maximum: maximum,
            margin: margin,
            accepted: 0,
        },
        &mut ring[..],
    )
}

// 000's VariableDelay::reset: refuses by 1, 2 or 3, or zeroes the ring and the count.
pub fn reset(state: VariableDelay, ring: &mut [f64]) -> Opened
    ensures value { result ≡ reset_of state (length ring.old) }
    ensures ring_after { ring.new ≡ ring_reset state ring.old }
{
    let needed = ring::length_for(state.maximum, state.margin);
    let t1 = needed != 0;
    let t2 = ring.len() == needed;
    let t3 = state.accepted <= LIMIT;
    let no = answer::first(t1, t2, t3, true, true, true, true, true);
    if no != 0 {
        return Opened::Refused(no);
    }
    ring::clear(&mut ring[..]);
    Opened::Reader(VariableDelay {
        maximum: state.maximum,
        margin: state.margin,
        accepted: 0,
    })
}
