// The range of a level: 1 to 2^36 samples were compared, and the sum of their squared differences is above 0 and no
// larger than differences of 24-bit samples give.
ghost use Rattle.std.specs.Prelude.{◌≡◌, ◌+◌, ◌*◌, ◌^◌, leb, ltb};
ghost use Rattle.decibels.specs.Decibels.{in_range, largest};

pub(crate) fn in_range(number: u64, high: u64, low: u64) -> bool
    ensures { result ≡ in_range number (high * 2 ^ 64 + low) }
{
    if number > 0x10_0000_0000 {
        return false;
    }
    if differs(high, low) {
        return at_most_largest(number, high, low);
    }
    false
}

fn differs(high: u64, low: u64) -> bool
    ensures { result ≡ ltb 0 (high * 2 ^ 64 + low) }
{
    if 0 < high {
        return true;
    }
    0 < low
}

// Four limbs, 128 bits, hold both sides for all arguments.
fn at_most_largest(number: u64, high: u64, low: u64) -> bool
    ensures { result ≡ leb (high * 2 ^ 64 + low) (largest number) }
{
    let mut most = [0u32; 4];
    big_numbers::store(&mut most, number);
    big_numbers::multiply(&mut most, 0, 0xFFFF_FE00_0001);
    let mut sum = [0u32; 4];
    big_numbers::store(&mut sum, 1);
    big_numbers::multiply(&mut sum, high, low);
    big_numbers::at_most(&sum, &most)
}
