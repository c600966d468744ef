// K1. Opening and reset of an f32 reader's ring and count for C. Each returns the refusal number, 0 for none.
ghost use Rattle.std.specs.Prelude.{◌≡◌};
ghost use Rattle.answer_parts.specs.States.{state_of};
ghost use Rattle.answer_parts.specs.Left.{renews, opened_left, reset_left};

use variable_delay::VariableDelay;

#[unsafe(no_mangle)]
pub extern "C" fn fugnadri_open_f32(
    maximum: usize,
    margin: usize,
    accepted: &mut u64,
    ring: &mut [f32],
) -> u8
    ensures { renews result accepted.new ring.new
        ≡ opened_left accepted.old maximum margin ring.old }
{
    let before = *accepted;
    let o = variable_delay_f32::open(maximum, margin, &mut ring[..]);
    *accepted = answer_parts::opened_count(before, o);
    answer_parts::opened_number(o)
}

#[unsafe(no_mangle)]
pub extern "C" fn fugnadri_reset_f32(
    maximum: usize,
    margin: usize,
    accepted: &mut u64,
    ring: &mut [f32],
) -> u8
    ensures { renews result accepted.new ring.new
        ≡ reset_left (state_of maximum margin accepted.old) ring.old }
{
    let before = *accepted;
    let state = VariableDelay {
        maximum: maximum,
        margin: margin,
        accepted: before,
    };
    let o = variable_delay_f32::reset(state, &mut ring[..]);
    *accepted = answer_parts::opened_count(before, o);
    answer_parts::opened_number(o)
}
