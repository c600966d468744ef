// Decimal digits, read as a number.
ghost use Rattle.std.specs.Prelude.{◌≡◌, ◌≤◌};
ghost use Rattle.decimals.specs.Reading.{number_up_to, whole_in};

// The whole number of 64 bits that the text says, if it says one: at least one digit, and nothing else.
pub fn read_u64(text: &[u8]) -> Option<u64>
    ensures { result ≡ whole_in text.now }
{
    if text.len() == 0 {
        return None;
    }
    digits(text, 0, 18446744073709551615)
}

// The number that `start` and the digits of the text behind it make. There is none if a byte is not a digit or the
// number is above `most`.
pub(crate) fn digits(text: &[u8], start: u64, most: u64) -> Option<u64>
    requires le_most { 9 ≤ most }
    requires start_le_most { start ≤ most }
    ensures { result ≡ number_up_to most start text.now }
{
    let mut v = start;
    for c in text {
        if *c < 48 {
            return None;
        }
        if *c > 57 {
            return None;
        }
        let d = u64::from(*c) - 48;
        // This is v * 10 + d ≤ most, without a product that could overflow.
        if v > (most - d) / 10 {
            return None;
        }
        v = v * 10 + d;
    }
    Some(v)
}
