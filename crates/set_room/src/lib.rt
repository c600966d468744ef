// A room of tables that two desks share: a desk asks for a set by its rate and its mode, and gives it up again (W4).
// The room is three lent slices: a rate and a mark for each slot, and the floats of a set.
#![tactic(auto)]

ghost use Rattle.std.specs.Prelude.{◌≡◌, true, ◌+◌, ◌*◌, ◌≤◌, length};
ghost use Rattle.constants.specs.Numbers.{set_length};
ghost use Rattle.bank_choice.specs.Rates.{bank_ok};
ghost use Rattle.sinc_bank_f32.specs.Sets.{set_in};
ghost use Rattle.set_room.specs.Room.{room_of, open_due, opened, grant_of, asked_of, give_up_due, gave_up, with_set};

use bessel::Mode;
use constants::SET_LENGTH;
use room_grants::Place;
use room_marks::Desk;

// What a desk that asks is answered: the number of a slot, or a refusal.
#[derive(Clone, Copy)]
pub enum Asked {
    Granted(usize),
    Refused(u8),
}

// Refuses by 2, or makes every slot free. The floats stay as they are.
pub fn open(rates: &mut [f64], marks: &mut [u8], slots: &[f32]) -> u8
    ensures value { result ≡ open_due (room_of rates.old marks.old slots.now) }
    ensures slots_after { room_of rates.new marks.new slots.now
        ≡ opened (room_of rates.old marks.old slots.now) }
{
    room_grants::open(&mut rates[..], &mut marks[..], slots.len())
}

// W4c. Builds a set in slot k. Nothing is refused, because `ask` has tested the rate and the lengths.
fn build(k: usize, rate: f64, mode: Mode, slots: &mut [f32])
    requires { (bank_ok rate ≡ true) × (k * set_length + set_length ≤ length slots.old) }
    ensures { slots.new ≡ with_set k (set_in mode rate) slots.old }
{
    let start = k * SET_LENGTH;
    let end = start + SET_LENGTH;
    let _built = sinc_bank_f32::build_set_in(rate, mode, &mut slots[start..end]);
}

// Refuses by 1, 2, 3 or 16, or grants the desk the set of a rate and a mode: it shares the set if it is there, and
// otherwise the first free slot is built.
pub fn ask(
    desk: Desk,
    rate: f64,
    mode: Mode,
    rates: &mut [f64],
    marks: &mut [u8],
    slots: &mut [f32],
) -> Asked
    ensures value { result ≡ grant_of rate mode (room_of rates.old marks.old slots.old) }
    ensures slots_after { room_of rates.new marks.new slots.new
        ≡ asked_of desk rate mode (room_of rates.old marks.old slots.old) }
{
    let place = room_grants::ask(
        desk,
        rate,
        mode,
        &mut rates[..],
        &mut marks[..],
        slots.len(),
    );
    match place {
        Place::Shared(k) => Asked::Granted(k),
        Place::Anew(k) => {
            build(k, rate, mode, &mut slots[..]);
            Asked::Granted(k)
        }
        Place::Refused(n) => Asked::Refused(n),
    }
}

// Refuses by 1, 2, 3 or 17, or takes the set from the desk. A slot that nobody holds any more is free.
pub fn give_up(
    desk: Desk,
    rate: f64,
    mode: Mode,
    rates: &[f64],
    marks: &mut [u8],
    slots: &[f32],
) -> u8
    ensures value { result ≡ give_up_due desk rate mode (room_of rates.now marks.old slots.now) }
    ensures slots_after { room_of rates.now marks.new slots.now
        ≡ gave_up desk rate mode (room_of rates.now marks.old slots.now) }
{
    room_grants::give_up(desk, rate, mode, rates, &mut marks[..], slots.len())
}
