// Texts put into a lent slice of bytes one after the other; each call gives the place for the next.
// A text that does not fit is cut off where the slice ends.
#![tactic(auto)]

ghost use Rattle.std.specs.Prelude.{◌≡◌, ◌+◌, ◌<◌, length};
ghost use Rattle.text.specs.Text.{decimal, put_at, place_after};

pub fn put(out: &mut [u8], at: usize, text: &[u8]) -> usize
    ensures value { result ≡ place_after (length out.old) at text.now }
    ensures out_after { out.new ≡ put_at out.old at text.now }
{
    if out.len() <= at {
        return out.len();
    }
    let n = text.len().min(out.len() - at);
    out[at..at + n].copy_from_slice(&text[..n]);
    at + n
}

pub fn put_decimal(out: &mut [u8], at: usize, n: u64) -> usize
    ensures value { result ≡ place_after (length out.old) at (decimal n) }
    ensures out_after { out.new ≡ put_at out.old at (decimal n) }
{
    let mut digits = [0u8; 20];
    let mut v = n;
    let mut k: usize = 19;
    // By hand: the number's last digit ends the loop, and which of the 20 that is only the quotients tell.
    while v > 9 {
        digits[k] = digit(v % 10);
        v /= 10;
        k -= 1;
    }
    digits[k] = digit(v);
    put(out, at, &digits[k..])
}

fn digit(d: u64) -> u8
    requires { d < 10 }
    ensures { result ≡ 48 + d }
{
    48 + d as u8
}
