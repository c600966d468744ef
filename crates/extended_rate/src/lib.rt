// W12e. The rate of an AIFF, an 80-bit extended number: 2 bytes of sign and exponent, 8 bytes of digits. It must be a
// whole number from 8000 to 768000. Every field and all digits are accepted.
#![tactic(auto)]

ghost use Rattle.std.specs.Prelude.{◌≡◌, cond, ◌≤◌};
ghost use Rattle.extended_rate.specs.Rate.{rate_of, in_range};

// The rate, or 0 if the number is not a whole number in range.
pub fn rate_of(field: u32, digits: u64) -> u32
    ensures { result ≡ rate_of field digits }
{
    // The first bit of the field is the sign.
    if field >= 0x8000 {
        return 0;
    }
    if field <= 16446 {
        return halved(field, digits);
    }
    doubled(field, digits)
}

// Each step of the exponent below that of a 1 halves the digits. If they are odd the number is not whole.
fn halved(field: u32, digits: u64) -> u32
    requires { field ≤ 16446 }
    ensures { result ≡ rate_of field digits }
{
    let mut d = digits;
    for _f in field..16446 {
        if d % 2 != 0 {
            return 0;
        }
        d /= 2;
    }
    if_in_range(d)
}

// Each step of the exponent above that of a 1 doubles the digits, which need not be normalised. Above 384000 the double
// is out of range.
fn doubled(field: u32, digits: u64) -> u32
    requires { (16446 ≤ field) × (field ≤ 0x7fff) }
    ensures { result ≡ rate_of field digits }
{
    let mut d = digits;
    for _f in (16446..field).rev() {
        if d > 384000 {
            return 0;
        }
        d *= 2;
    }
    if_in_range(d)
}

fn if_in_range(d: u64) -> u32
    ensures { result ≡ cond (in_range d) d 0 }
{
    if d < 8000 {
        return 0;
    }
    if d > 768000 {
        return 0;
    }
    d as u32
}
