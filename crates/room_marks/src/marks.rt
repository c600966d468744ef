// What a slot's mark says (W4).
ghost use Rattle.std.specs.Prelude.{◌≡◌, ◌||◌};
ghost use Rattle.room_marks.specs.Marks.{desk_number, desk_of, known_desk, mark_ok, held_by, in_mode, mode_in};

use crate::Desk;
use bessel::Mode;
use refusal_order::both;

// `a || b` without a branch: both arguments are already computed.
fn either(a: bool, b: bool) -> bool
    ensures { result ≡ a || b }
{
    if a { true } else { b }
}

// A desk's number, for callers that can only pass numbers. It is also what the desk adds to a mark.
pub fn number(desk: Desk) -> u8
    ensures { result ≡ desk_number desk }
{
    match desk {
        Desk::One => 1,
        Desk::Two => 2,
    }
}

// The desk with a number. Any number but 1 and 2 is not a desk's; whoever takes numbers from outside tests that with
// `known`.
pub fn of_number(number: u8) -> Desk
    ensures { result ≡ desk_of number }
{
    if number == self::number(Desk::One) {
        Desk::One
    } else {
        Desk::Two
    }
}

// Whether a number names a desk.
pub fn known(number: u8) -> bool
    ensures { result ≡ known_desk number }
{
    either(
        number == self::number(Desk::One),
        number == self::number(Desk::Two),
    )
}

pub(crate) fn mark_ok(mark: u8) -> bool
    ensures { result ≡ mark_ok mark }
{
    both(mark <= 7, mark != 4)
}

// Whether a desk holds the slot.
pub fn held_by(desk: Desk, mark: u8) -> bool
    ensures { result ≡ held_by desk mark }
{
    let holders = mark % 4;
    match desk {
        Desk::One => either(holders == 1, holders == 3),
        Desk::Two => 2 <= holders,
    }
}

// Whether the set of a slot is in a mode.
pub fn in_mode(mode: Mode, mark: u8) -> bool
    ensures { result ≡ in_mode mode mark }
{
    match mode {
        Mode::Ported => mark < 4,
        Mode::Full => 4 <= mark,
    }
}

pub(crate) fn mode_in(mark: u8) -> Mode
    ensures { result ≡ mode_in mark }
{
    if mark < 4 { Mode::Ported } else { Mode::Full }
}
