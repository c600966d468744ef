// Looking through the slots of a room: the first that passes a test, and whether all are in range (W4).
ghost use Rattle.std.specs.Prelude.{◌≡◌, not, ◌&&◌, ◌+◌, ◌<◌, length, get_or, drop};
ghost use Rattle.constants.specs.Numbers.{zero-f};
ghost use Rattle.room_marks.specs.Slots.{some, first_slot, has_set, slot_ok, again, room_ok};
ghost use Rattle.room_marks.specs.Search.{suits_of, shorter, alone_at};

use crate::Desk;
use crate::marks::{held_by, in_mode, mark_ok, mode_in};
use bessel::Mode;
use refusal_order::both;

// What is looked for: a free slot, or one with a set that a desk holds.
#[derive(Clone, Copy)]
pub enum Wanted {
    Free,
    Own(Desk, f64, Mode),
}

fn suits(wanted: Wanted, r: f64, mark: u8) -> bool
    ensures { result ≡ suits_of wanted r mark }
{
    match wanted {
        Wanted::Free => mark == 0,
        Wanted::Own(desk, rate, mode) => {
            both(held_by(desk, mark), both(in_mode(mode, mark), rate == r))
        }
    }
}

// How many slots there are: with lists of different lengths, those that have a rate and a mark.
fn slots(rates: &[f64], marks: &[u8]) -> usize
    ensures { result ≡ shorter rates.now marks.now }
{
    if rates.len() < marks.len() {
        rates.len()
    } else {
        marks.len()
    }
}

// The first slot that is wanted; the number of slots if none is.
pub(crate) fn first(wanted: Wanted, rates: &[f64], marks: &[u8]) -> usize
    ensures { result ≡ first_slot (suits_of wanted) rates.now marks.now }
{
    let n = slots(rates, marks);
    for i in 0..n {
        if suits(wanted, rates[i], marks[i]) {
            return i;
        }
    }
    n
}

// The rate is tested first, because it mostly differs.
fn has_set(rate: f64, mode: Mode, r: f64, mark: u8) -> bool
    ensures { result ≡ has_set rate mode r mark }
{
    if rate == r {
        return both(mark != 0, in_mode(mode, mark));
    }
    false
}

// The first slot that has a set; the number of slots if none has it. Test 3 looks for each set in the slots behind it,
// so this search has a loop of its own, which asks nothing else of a slot.
pub(crate) fn first_set(rate: f64, mode: Mode, rates: &[f64], marks: &[u8]) -> usize
    ensures { result ≡ first_slot (has_set rate mode) rates.now marks.now }
{
    let n = slots(rates, marks);
    for i in 0..n {
        if has_set(rate, mode, rates[i], marks[i]) {
            return i;
        }
    }
    n
}

// Whether some slot has a set.
fn any_set(rate: f64, mode: Mode, rates: &[f64], marks: &[u8]) -> bool
    ensures { result ≡ some (has_set rate mode) rates.now marks.now }
{
    first_set(rate, mode, rates, marks) < slots(rates, marks)
}

// W4j. Slot i is in range, and no later one has its set.
fn alone(rates: &[f64], marks: &[u8], i: usize) -> bool
    requires { i < shorter rates.now marks.now }
    ensures { result ≡ alone_at rates.now marks.now i }
{
    let mark = marks[i];
    if mark == 0 {
        return true;
    }
    let rate = rates[i];
    if !both(mark_ok(mark), magnitude::within(rate, 1.0, 2.0)) {
        return false;
    }
    let from = i + 1;
    !any_set(rate, mode_in(mark), &rates[from..], &marks[from..])
}

// W4j. Test 3: every slot is in range, and no two held ones have the same set.
pub fn room_ok(rates: &[f64], marks: &[u8]) -> bool
    ensures { result ≡ room_ok rates.now marks.now }
{
    for i in 0..slots(rates, marks) {
        if !alone(rates, marks, i) {
            return false;
        }
    }
    true
}
