// The random generator xorshift64*: its seeds, its step, and the numbers that are made of a draw (M1, M3).
#![tactic(auto)]

ghost use Rattle.std.specs.Prelude.{◌≡◌};
ghost use Rattle.xorshift.specs.Xorshift.{step_of};
ghost use Rattle.xorshift.specs.Seeds.{seed_of, flutter_seed_of};
ghost use Rattle.xorshift.specs.Draws.{bipolar_of, scale_of};

// M1. 001's normalized_seed. From a state of 0 the generator would only ever give 0, so another seed replaces it.
pub fn normalized_seed(seed: u64) -> u64
    ensures { result ≡ seed_of seed }
{
    if seed == 0 {
        0xA076_1D64_78BD_642F
    } else {
        seed
    }
}

// M1. The seed of 001's second generator.
pub fn flutter_seed(seed: u64) -> u64
    ensures { result ≡ flutter_seed_of seed }
{
    normalized_seed(seed ^ 0xD1B5_4A32_D192_ED03)
}

// M3. One step of xorshift64*. The shift to the left drops what does not fit into 64 bits.
pub fn step(x: u64) -> u64
    ensures { result ≡ step_of x }
{
    let a = x ^ (x >> 12);
    let b = a ^ wrapping_u64::shl(a, 25);
    b ^ (b >> 27)
}

// M3. The number drawn when the state has become x, from -1 to 1. Only the 53 highest digits are taken, because a float
// holds a whole number of 53 digits exactly.
pub fn bipolar(x: u64) -> f64
    ensures { result ≡ bipolar_of x }
{
    let value = wrapping_u64::wrapping_mul(x, 0x2545_F491_4F6C_DD1D);
    let unit = (value >> 11) as f64 * (1.0 / 9007199254740992.0);
    unit * 2.0 - 1.0
}

// M3. A number from 0.65 to 1.35 from the same draw, so that the targets do not come at a steady beat.
pub fn scale(x: u64) -> f64
    ensures { result ≡ scale_of x }
{
    1.0 + 0.35 * bipolar(x)
}
