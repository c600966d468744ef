// What becomes of a slot's mark (W4).
ghost use Rattle.std.specs.Prelude.{◌≡◌, true};
ghost use Rattle.room_marks.specs.Marks.{mode_number, mark_ok, other_desk, held_by, built_by, shared_by, left_by};

use bessel::Mode;
use room_marks::{Desk, held_by, number};

fn mode_number(mode: Mode) -> u8
    ensures { result ≡ mode_number mode }
{
    match mode {
        Mode::Ported => 0,
        Mode::Full => 4,
    }
}

pub(crate) fn built_by(desk: Desk, mode: Mode) -> u8
    ensures { result ≡ built_by desk mode }
{
    number(desk) + mode_number(mode)
}

pub(crate) fn shared_by(desk: Desk, mark: u8) -> u8
    requires { mark_ok mark ≡ true }
    ensures { result ≡ shared_by desk mark }
{
    let more = mark + number(desk);
    if held_by(desk, mark) {
        return mark;
    }
    more
}

fn other(desk: Desk) -> Desk
    ensures { result ≡ other_desk desk }
{
    match desk {
        Desk::One => Desk::Two,
        Desk::Two => Desk::One,
    }
}

pub(crate) fn left_by(desk: Desk, mark: u8) -> u8
    requires { held_by desk mark ≡ true }
    ensures { result ≡ left_by desk mark }
{
    let rest = mark - number(desk);
    if held_by(other(desk), mark) {
        return rest;
    }
    0
}
