// The level of a residual in tenths of a decibel, worked out in whole numbers alone.
#![tactic(auto)]

mod powers; // the two powers that are compared, and the count of tenths between them
mod range; // which numbers and sums have a level

ghost use Rattle.std.specs.Prelude.{◌≡◌, ◌+◌, ◌*◌, ◌^◌};
ghost use Rattle.decibels.specs.Decibels.{level_of};

// The level of two stretches by the number compared and the sum of squared differences, which is given in halves of 64
// bits as `residual` reports it: how many tenths of a decibel it lies below +6.1 dB. There is none if nothing was
// compared or nothing differs.
pub fn tenths(number: u64, high: u64, low: u64) -> Option<u32>
    ensures { result ≡ level_of number (high * 2 ^ 64 + low) }
{
    if range::in_range(number, high, low) {
        return Some(powers::tenths_below(number, high, low));
    }
    None
}
