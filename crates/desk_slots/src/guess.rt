// A slot that is guessed: in a room in range it is the only one with its set.
ghost use Rattle.std.specs.Prelude.{◌≡◌, true, ◌<◌, get_or};
ghost use Rattle.std.specs.Float.{nan};
ghost use Rattle.room_marks.specs.Search.{shorter};
ghost use Rattle.room_marks.specs.Slots.{own_set, room_ok};
ghost use Rattle.room_marks.specs.Asking.{own_slot};

use bessel::Mode;
use refusal_order::both;
use room_marks::Desk;

// Whether slot k is one of the room's and holds the set of a rate and a mode for a desk.
fn there(desk: Desk, mode: Mode, rate: f64, k: usize, rates: &[f64], marks: &[u8]) -> bool
    ensures { result ≡ true
        → (k < shorter rates.now marks.now)
        × (own_set desk rate mode (get_or rates.now k nan) (get_or marks.now k 0) ≡ true) }
{
    if k < rates.len() {
        if k < marks.len() {
            let mark = marks[k];
            return both(
                room_marks::held_by(desk, mark),
                both(room_marks::in_mode(mode, mark), rate == rates[k]),
            );
        }
    }
    false
}

pub(crate) fn near(
    desk: Desk,
    mode: Mode,
    rate: f64,
    k: usize,
    rates: &[f64],
    marks: &[u8],
) -> usize
    requires { room_ok rates.now marks.now ≡ true }
    ensures { result ≡ own_slot desk rate mode rates.now marks.now }
{
    if there(desk, mode, rate, k, rates, marks) {
        return k;
    }
    room_marks::own_slot(desk, rate, mode, rates, marks)
}
