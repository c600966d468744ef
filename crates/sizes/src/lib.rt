// Sums, differences, products and quotients of sizes for every size, since a file's header may say anything, and the
// beginning of a slice. A sum or a product that does not fit a word becomes the largest word, which is longer than any
// file.
#![tactic(auto)]

ghost use Rattle.std.specs.Prelude.{◌≡◌, cond, ◌+◌, ◌-◌, ◌*◌, ◌/◌, min, eqb, take};
ghost use Rattle.sizes.specs.Sizes.{most};

const MOST: usize = 0xffff_ffff_ffff_ffff;

pub fn fewer(a: usize, b: usize) -> usize
    ensures { result ≡ min a b }
{
    if a < b { a } else { b }
}

// The difference a - b, or 0 if b is larger.
pub fn less(a: usize, b: usize) -> usize
    ensures { result ≡ a - b }
{
    if a < b { 0 } else { a - b }
}

pub fn plus(a: usize, b: usize) -> usize
    ensures { result ≡ min (a + b) most }
{
    if b <= MOST - a { a + b } else { MOST }
}

pub fn times(a: usize, b: usize) -> usize
    ensures { result ≡ min (a * b) most }
{
    if b == 0 {
        return 0;
    }
    if a <= MOST / b { a * b } else { MOST }
}

// The quotient a / b, or 0 if b is 0.
pub fn quotient(a: usize, b: usize) -> usize
    ensures { result ≡ cond (eqb b 0) 0 (a / b) }
{
    if b == 0 { 0 } else { a / b }
}

// The first n bytes, or all if there are fewer.
pub fn begun(bytes: &[u8], n: usize) -> &[u8]
    ensures { result.now ≡ take n bytes.now }
{
    if n < bytes.len() {
        return &bytes[..n];
    }
    bytes
}

// The same for samples, and below it for whole numbers.
pub fn begun_f32(samples: &[f32], n: usize) -> &[f32]
    ensures { result.now ≡ take n samples.now }
{
    if n < samples.len() {
        return &samples[..n];
    }
    samples
}

pub fn begun_i32(numbers: &[i32], n: usize) -> &[i32]
    ensures { result.now ≡ take n numbers.now }
{
    if n < numbers.len() {
        return &numbers[..n];
    }
    numbers
}
