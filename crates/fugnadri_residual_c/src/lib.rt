// The static library of the residual for C and Rust (W13). Numbers are passed through pointers, a slice as a pointer
// and a length; there is no enum and no struct. The export calls the function of `fugnadri_residual` that bears its
// name, and has its clause.
#![tactic(auto)]

ghost use Rattle.std.specs.Prelude.{◌≡◌};
ghost use Rattle.fugnadri_residual.specs.Words.{numbers, leaves, left_from};

// The six numbers of the report go in and, if the call is not refused, come out extended. The refusal number is
// returned, 0 for none.
#[unsafe(no_mangle)]
pub extern "C" fn fugnadri_residual_compare(
    number: &mut u64,
    largest: &mut u32,
    placed: &mut u8,
    place: &mut u64,
    high: &mut u64,
    low: &mut u64,
    a: &[i32],
    b: &[i32],
) -> u8
    ensures { leaves result
        (numbers number.new largest.new placed.new place.new
        high.new low.new)
        ≡ left_from
        (numbers number.old largest.old placed.old place.old
        high.old low.old)
        a.now b.now }
{
    fugnadri_residual::fugnadri_residual_compare(number, largest, placed, place, high, low, a, b)
}
