// Which slots of a room two desks hold: a room's rates and marks, without its floats (W4).
// A mark is 0 for a free slot, otherwise 1, 2 or 3 if desk one, desk two or both hold it, and 4 more in the full mode.
#![tactic(auto)]

mod marks; // what a mark says
mod search; // the first slot that passes a test, and whether a room is in range

ghost use Rattle.std.specs.Prelude.{◌≡◌};
ghost use Rattle.room_marks.specs.Asking.{lengths_agree, set_slot, free_slot, own_slot};

use bessel::Mode;
use constants::SET_LENGTH;
pub use marks::{held_by, in_mode, known, number, of_number};
use refusal_order::both;
pub use search::room_ok;
use search::{Wanted, first, first_set};

// At the boundary, where only numbers pass, they are 1 and 2.
#[derive(Clone, Copy)]
pub enum Desk {
    One,
    Two,
}

// The slot that has the set of a rate and a mode, whoever holds it; the number of slots if none has it.
pub fn set_slot(rate: f64, mode: Mode, rates: &[f64], marks: &[u8]) -> usize
    ensures { result ≡ set_slot rate mode rates.now marks.now }
{
    first_set(rate, mode, rates, marks)
}

// The first free slot; the number of slots if none is free.
pub fn free_slot(rates: &[f64], marks: &[u8]) -> usize
    ensures { result ≡ free_slot rates.now marks.now }
{
    first(Wanted::Free, rates, marks)
}

// The first slot in which this desk holds the set of a rate and a mode; the number of slots if it holds it in none.
pub fn own_slot(desk: Desk, rate: f64, mode: Mode, rates: &[f64], marks: &[u8]) -> usize
    ensures { result ≡ own_slot desk rate mode rates.now marks.now }
{
    first(Wanted::Own(desk, rate, mode), rates, marks)
}

// The greatest number of slots whose floats are counted by a word: 2^64 - 1, divided by a set's length.
const MOST_SLOTS: usize = 17054294995885;

// W4a. A number of marks times a set's length need not fit a word; beyond that no number of floats agrees.
pub fn lengths_agree(rates: &[f64], marks: &[u8], floats: usize) -> bool
    ensures { result ≡ lengths_agree rates.now marks.now floats }
{
    if marks.len() <= MOST_SLOTS {
        return both(
            rates.len() == marks.len(),
            floats == marks.len() * SET_LENGTH,
        );
    }
    false
}
