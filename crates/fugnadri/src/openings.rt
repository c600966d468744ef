// Opening and reset of a delay reader's ring and count for C (K1): each returns the refusal number, 0 for none. Readers
// of all kernels are opened alike, so the kernel is not named.
ghost use Rattle.std.specs.Prelude.{◌≡◌};
ghost use Rattle.answer_parts.specs.States.{state_of};
ghost use Rattle.answer_parts.specs.Left.{renews, opened_left, reset_left};

use variable_delay::VariableDelay;

#[unsafe(no_mangle)]
pub extern "C" fn fugnadri_open(
    maximum: usize,
    margin: usize,
    accepted: &mut u64,
    ring: &mut [f64],
) -> u8
    ensures { renews result accepted.new ring.new
        ≡ opened_left accepted.old maximum margin ring.old }
{
    let before = *accepted;
    let o = variable_delay::open(maximum, margin, &mut ring[..]);
    *accepted = answer_parts::opened_count(before, o);
    answer_parts::opened_number(o)
}

#[unsafe(no_mangle)]
pub extern "C" fn fugnadri_reset(
    maximum: usize,
    margin: usize,
    accepted: &mut u64,
    ring: &mut [f64],
) -> u8
    ensures { renews result accepted.new ring.new
        ≡ reset_left (state_of maximum margin accepted.old) ring.old }
{
    let before = *accepted;
    let state = VariableDelay {
        maximum: maximum,
        margin: margin,
        accepted: before,
    };
    let o = variable_delay::reset(state, &mut ring[..]);
    *accepted = answer_parts::opened_count(before, o);
    answer_parts::opened_number(o)
}
