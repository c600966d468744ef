// One item of a stretch over a ring of f32: it is refused by 4, 5, 6 or 8, or its sample is stored (W3b).
// A stretch tests 1 to 3 once, before its first item, so that an item need not.
#![tactic(auto)]

ghost use Rattle.std.specs.Prelude.{◌≡◌, true, set};
ghost use Rattle.stretch_call.specs.Items.{item_due};
ghost use Rattle.item_f32.specs.Item.{item_stored, taken_of};

use constants::{LIMIT, LIMIT_F64};
use refusal_order::both;

// What an item leaves beside the ring: the number of its refusal, 0 for none, and the position to be read.
#[derive(Drop)]
pub struct Taken {
    pub refusal: u8,
    pub position: f64,
}

// Fast path: true only if nothing is refused. A delay between two finite numbers is finite.
fn fine(i: u64, input: f32, delay: f64) -> bool
    ensures { result ≡ true → item_due i input delay ≡ 0 }
{
    if i < LIMIT {
        if delay >= 0.0 {
            if delay <= LIMIT_F64 {
                return magnitude::is_finite_f32(input);
            }
        }
    }
    false
}

// The number of the refusal of an item after i accepted samples, 0 for none.
pub fn due(i: u64, input: f32, delay: f64) -> u8
    ensures { result ≡ item_due i input delay }
{
    if fine(i, input, delay) {
        return 0;
    }
    let t4 = magnitude::is_finite_f32(input);
    let t5 = both(magnitude::is_finite(delay), delay >= 0.0);
    let t6 = delay <= LIMIT_F64;
    let t8 = i < LIMIT;
    answer::first(true, true, true, t4, t5, t6, true, t8)
}

// An empty ring has no place, so that nothing is written to it.
fn put(ring: &mut [f32], at: usize, input: f32)
    ensures { ring.new ≡ set ring.old at input }
{
    if at < ring.len() {
        ring[at] = input;
    }
}

// Refuses an item after i accepted samples, or stores its sample; the caller then reads at the position.
pub fn take(i: u64, ring: &mut [f32], input: f32, delay: f64) -> Taken
    ensures value { result ≡ taken_of (item_due i input delay) i delay }
    ensures ring_after { ring.new ≡ item_stored (item_due i input delay) i ring.old input }
{
    let no = due(i, input, delay);
    if no != 0 {
        return Taken {
            refusal: no,
            position: 0.0,
        };
    }
    let at = ring::place(i, ring.len());
    put(&mut ring[..], at, input);
    Taken {
        refusal: 0,
        position: (i as i64) as f64 - delay,
    }
}
