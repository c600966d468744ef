// Granting the slots of a room to two desks: opening, asking for a set and giving it up, over the room's rates and
// marks, without its floats (W4).
#![tactic(auto)]

mod becomes; // what becomes of a mark

ghost use Rattle.std.specs.Prelude.{◌≡◌, length, replicate};
ghost use Rattle.constants.specs.Numbers.{zero-f};
ghost use Rattle.room_grants.specs.Grants.{open_verdict, cleared_to, asked_place, rates_by, marks_by};
ghost use Rattle.room_grants.specs.Grants.{give_up_verdict, given_up, room_verdict};

use becomes::{built_by, left_by, shared_by};
use bessel::Mode;
use room_marks::{Desk, free_slot, lengths_agree, own_slot, room_ok, set_slot};

// Where an asked set is: in a slot that has it, or in a free one, which is to be built.
#[derive(Clone, Copy)]
pub enum Place {
    Shared(usize),
    Anew(usize),
    Refused(u8),
}

fn clear_marks(marks: &mut [u8])
    ensures { marks.new ≡ replicate (length marks.old) 0 }
{
    marks.fill(0);
}

// Refuses by 2, or makes every slot free.
pub fn open(rates: &mut [f64], marks: &mut [u8], floats: usize) -> u8
    ensures value { result ≡ open_verdict rates.old marks.old floats }
    ensures rates_after { rates.new
        ≡ cleared_to (open_verdict rates.old marks.old floats) zero-f rates.old }
    ensures marks_after { marks.new
        ≡ cleared_to (open_verdict rates.old marks.old floats) 0 marks.old }
{
    if !lengths_agree(&rates[..], &marks[..], floats) {
        return 2;
    }
    ring::clear(&mut rates[..]);
    clear_marks(&mut marks[..]);
    0
}

// The refusals 1, 2 and 3, which asking and giving up share; 0 for none.
fn room_due(rate: f64, rates: &[f64], marks: &[u8], floats: usize) -> u8
    ensures { result ≡ room_verdict rate rates.now marks.now floats }
{
    if !magnitude::within(rate, 1.0, 2.0) {
        return 1;
    }
    if !lengths_agree(rates, marks, floats) {
        return 2;
    }
    if !room_ok(rates, marks) {
        return 3;
    }
    0
}

// Refuses by 1, 2, 3 or 16, or writes down that the desk holds the set: in the slot that has it, whoever holds it, and
// otherwise in the first free one.
pub fn ask(
    desk: Desk,
    rate: f64,
    mode: Mode,
    rates: &mut [f64],
    marks: &mut [u8],
    floats: usize,
) -> Place
    ensures value { result ≡ asked_place rate mode rates.old marks.old floats }
    ensures rates_after { rates.new
        ≡ rates_by (asked_place rate mode rates.old marks.old floats) rate rates.old }
    ensures marks_after { marks.new
        ≡ marks_by (asked_place rate mode rates.old marks.old floats) desk mode marks.old }
{
    let no = room_due(rate, &rates[..], &marks[..], floats);
    if no != 0 {
        return Place::Refused(no);
    }
    let there = set_slot(rate, mode, &rates[..], &marks[..]);
    if there < marks.len() {
        marks[there] = shared_by(desk, marks[there]);
        return Place::Shared(there);
    }
    let free = free_slot(&rates[..], &marks[..]);
    if free < marks.len() {
        rates[free] = rate;
        marks[free] = built_by(desk, mode);
        return Place::Anew(free);
    }
    Place::Refused(16)
}

// Refuses by 1, 2, 3 or 17, or writes down that the desk no longer holds the set. The slot is free if nobody else does.
pub fn give_up(
    desk: Desk,
    rate: f64,
    mode: Mode,
    rates: &[f64],
    marks: &mut [u8],
    floats: usize,
) -> u8
    ensures value { result ≡ give_up_verdict desk rate mode rates.now marks.old floats }
    ensures marks_after { marks.new ≡ given_up desk rate mode rates.now marks.old floats }
{
    let no = room_due(rate, rates, &marks[..], floats);
    if no != 0 {
        return no;
    }
    let k = own_slot(desk, rate, mode, rates, &marks[..]);
    if k < marks.len() {
        marks[k] = left_by(desk, marks[k]);
        return 0;
    }
    17
}
