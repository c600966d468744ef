// A room's calls on plain numbers, for C (W4): a desk is 1 or 2, a mode 0 or 1, and any other number is refused by 1.
#![tactic(auto)]

ghost use Rattle.std.specs.Prelude.{◌≡◌};
ghost use Rattle.set_room.specs.Room.{room_of};
ghost use Rattle.room_codes.specs.Coded.{ask_left, leaves, give_up_number, given_up_room};

use refusal_order::both;
use set_room::Asked;

// `set_room::ask`: writes the number of the granted slot (0 if refused) and returns the refusal number, 0 for none.
pub fn ask(
    desk: u8,
    rate: f64,
    mode: u8,
    rates: &mut [f64],
    marks: &mut [u8],
    slots: &mut [f32],
    slot: &mut usize,
) -> u8
    ensures { leaves result slot.new (room_of rates.new marks.new slots.new)
        ≡ ask_left desk rate mode (room_of rates.old marks.old slots.old) }
{
    if both(room_marks::known(desk), bessel::known(mode)) {
        let asked = set_room::ask(
            room_marks::of_number(desk),
            rate,
            bessel::of_code(mode),
            &mut rates[..],
            &mut marks[..],
            &mut slots[..],
        );
        match asked {
            Asked::Granted(k) => {
                *slot = k;
                return 0;
            }
            Asked::Refused(n) => {
                *slot = 0;
                return n;
            }
        }
    }
    *slot = 0;
    1
}

pub fn give_up(desk: u8, rate: f64, mode: u8, rates: &[f64], marks: &mut [u8], slots: &[f32]) -> u8
    ensures value { result ≡ give_up_number desk rate mode (room_of rates.now marks.old slots.now) }
    ensures slots_after { room_of rates.now marks.new slots.now
        ≡ given_up_room desk rate mode (room_of rates.now marks.old slots.now) }
{
    if both(room_marks::known(desk), bessel::known(mode)) {
        return set_room::give_up(
            room_marks::of_number(desk),
            rate,
            bessel::of_code(mode),
            rates,
            &mut marks[..],
            slots,
        );
    }
    1
}
