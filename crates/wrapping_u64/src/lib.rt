// Products and left shifts of 64-bit words that drop what does not fit, as Rust's `wrapping_mul` and `<<` do (F6).
// The product is made of halves of 32 bits and one wrapping sum, since an ordinary product that overflows is refused.
#![tactic(auto)]

ghost use Rattle.std.specs.Prelude.{◌≡◌, ◌*◌, ◌%◌, ◌^◌};

// F6. Schoolbook product by 32-bit halves: the product of the two upper halves is a multiple of 2^64 and drops out, and
// of the two mixed products only the lower halves count.
pub fn wrapping_mul(a: u64, b: u64) -> u64
    ensures { result ≡ a * b % 2 ^ 64 }
{
    let al = a & 0xffff_ffff;
    let ah = a >> 32;
    let bl = b & 0xffff_ffff;
    let bh = b >> 32;
    let mixed = (al * bh & 0xffff_ffff) + (ah * bl & 0xffff_ffff);
    std::num::wrapping_add_u64(al * bl, (mixed & 0xffff_ffff) << 32)
}

// F6. A shift by 64 or more gives 0. The language's own `<<` is defined only for an n below 64.
pub fn shl(a: u64, n: u64) -> u64
    ensures { result ≡ a * 2 ^ n % 2 ^ 64 }
{
    if n < 64 { wrapping_mul(a, 1 << n) } else { 0 }
}
