// Where the two sets of a desk's call lie in a room, and whether the room is in range (W4). They are found by a guess
// and a quick test where a room is as it mostly is, and otherwise by room_marks' own searches.
#![tactic(auto)]

mod guess; // a slot that is guessed
mod rising; // the quick test

ghost use Rattle.std.specs.Prelude.{◌≡◌};
ghost use Rattle.desk_slots.specs.Found.{found_of};

use bessel::Mode;
use room_marks::Desk;

// A slot's number is the number of slots if the desk does not hold the set.
#[derive(Clone, Copy)]
pub struct Found {
    pub safe: usize,
    pub tighter: usize,
    pub whole: bool,
}

// The slots in which a desk holds the sets of two rates, and whether the room is in range. Both slots are guessed by
// `safe` and `tighter`, the sets' numbers in their bank, which are the slots' if a desk asked for a bank's sets in
// their order in an empty room.
pub fn find<'a>(
    desk: Desk,
    mode: Mode,
    safe_rate: f64,
    tighter_rate: f64,
    safe: usize,
    tighter: usize,
    rates: &'a [f64],
    marks: &'a [u8],
) -> Found
    ensures { result ≡
        found_of desk mode safe_rate tighter_rate rates.now marks.now }
{
    if rising::rising(rates, marks) {
        return Found {
            safe: guess::near(desk, mode, safe_rate, safe, rates, marks),
            tighter: guess::near(desk, mode, tighter_rate, tighter, rates, marks),
            whole: true,
        };
    }
    Found {
        safe: room_marks::own_slot(desk, safe_rate, mode, rates, marks),
        tighter: room_marks::own_slot(desk, tighter_rate, mode, rates, marks),
        whole: room_marks::room_ok(rates, marks),
    }
}
