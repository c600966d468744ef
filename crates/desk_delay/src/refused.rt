// The refusal of a call whose room is out of range: 3, unless 1 or 2 is due.
ghost use Rattle.std.specs.Prelude.{◌≡◌};
ghost use Rattle.desk_delay.specs.Inner.{out_of_range, in_room, refused_by};
ghost use Rattle.quality_variable_delay.specs.Reader.{verdict};

use quality_variable_delay::{ProcessedQ, QualityVariableDelayF32};

// The number, where `v` is the refusal in a room in range.
fn number(v: u8) -> u8
    ensures { result ≡ out_of_range v }
{
    if v == 1 {
        return 1;
    }
    if v == 2 { 2 } else { 3 }
}

// The same, whether the room is in range or not.
pub(crate) fn in_room(whole: bool, v: u8) -> u8
    ensures { result ≡ in_room whole v }
{
    if whole {
        return v;
    }
    number(v)
}

pub(crate) fn refused(
    state: QualityVariableDelayF32,
    bank: bool,
    lent: bool,
    len: usize,
    input: f32,
    delay: f64,
    playback_rate: f64,
) -> ProcessedQ
    ensures { result ≡
        refused_by (out_of_range (verdict bank lent state len input delay playback_rate)) state }
{
    let v = quality_variable_delay::refusal(state, bank, lent, len, input, delay, playback_rate);
    ProcessedQ {
        state: state,
        answer: answer::answered_f32(number(v), 0.0),
    }
}
