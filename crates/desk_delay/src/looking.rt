// Where a desk's two sets lie in a room, and whether the room is as it must be.
ghost use Rattle.std.specs.Prelude.{◌≡◌, ◌||◌};
ghost use Rattle.desk_delay.specs.Desk.{caller_of};
ghost use Rattle.desk_delay.specs.Inner.{looked_of};

use super::set_rates::set_rate;
use bank_choice::Choice;
use bessel::Mode;
use refusal_order::both;
use room_marks::Desk;

// What is found: the choice by slots, whether both sets are held and the lengths agree (2), and whether the room is in
// range (3).
#[derive(Drop)]
pub struct Looked {
    pub choice: Choice,
    pub lent: bool,
    pub whole: bool,
}

// `a || b` without a branch: both arguments are already computed.
fn either(a: bool, b: bool) -> bool
    ensures { result ≡ a || b }
{
    if a { true } else { b }
}

// A slot that is not there has the number of slots for its number.
pub(crate) fn look<'a>(
    desk: Desk,
    mode: Mode,
    rates: &'a [f64],
    marks: &'a [u8],
    floats: usize,
    max_rate: f64,
    playback_rate: f64,
) -> Looked
    ensures { result ≡
        looked_of (caller_of desk mode) rates.now marks.now floats max_rate playback_rate }
{
    let c = bank_choice::choice_or_zero(max_rate, playback_rate);
    let sets = bank_choice::steps(max_rate);
    let found = desk_slots::find(
        desk,
        mode,
        set_rate(max_rate, sets, c.safe),
        set_rate(max_rate, sets, c.tighter),
        c.safe,
        c.tighter,
        rates,
        marks,
    );
    let safe = found.safe;
    let tighter = found.tighter;
    let n = marks.len();
    let lent = both(
        room_marks::lengths_agree(rates, marks, floats),
        either(
            !bank_choice::is_number(playback_rate),
            both(safe < n, tighter < n),
        ),
    );
    Looked {
        choice: Choice {
            safe: safe,
            tighter: tighter,
            which: c.which,
            blend: c.blend,
        },
        lent: lent,
        whole: found.whole,
    }
}
