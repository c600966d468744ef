// E2. How many quarter turns an argument beyond 1 has, and what is left of it.
ghost use Rattle.std.specs.Prelude.{T, not};
ghost use Rattle.polynomials.specs.Range.{at_most};
ghost use Rattle.elementary.specs.Steps.{Guess, Rest, Settled};

#[derive(Clone, Copy)]
pub(crate) struct Turned {
    pub(crate) quarter: u64,
    pub(crate) rest: f64,
}

// A whole number near x / H + 256, where H is a quarter turn. From 2^52 on the floats are the whole numbers, so the sum
// rounds to one, and the sum's pattern ends in it.
fn guess(x: f64) -> u64
    requires { T (at_most 256 x) }
    ensures { Guess x result }
{
    f64::to_bits(x * 0.6366197723675814 + 4503599627370752.0) - 0x4330_0000_0000_0000
}

// The rest x - (j - 256) * H. H is split into two parts, so that each step is exact.
fn rest(x: f64, j: u64) -> f64
    requires fact_1 { T (not (at_most 1 x)) }
    requires fact_2 { T (at_most 256 x) }
    requires fact_3 { Guess x j }
    ensures { Rest x j result }
{
    let whole = j as u32;
    let k = whole as f64 - 256.0;
    x - k * 1.570796310901641845703125 - k * 0.0000000158932547122958567342720925807952880859375
}

// How many quarter turns x has, modulo 4, and what is left. The guess is at most one off, and if it is, the rest lies
// outside -H/2 to H/2.
pub(crate) fn turn(x: f64) -> Turned
    requires fact_1 { T (not (at_most 1 x)) }
    requires fact_2 { T (at_most 256 x) }
    ensures { Settled x result.quarter result.rest }
{
    let j = guess(x);
    let r = rest(x, j);
    if r < 0.7853981633974483 {
        if r < -0.7853981633974483 {
            let i = j - 1;
            let s = rest(x, i);
            Turned {
                quarter: i % 4,
                rest: s,
            }
        } else {
            Turned {
                quarter: j % 4,
                rest: r,
            }
        }
    } else {
        let i = j + 1;
        let s = rest(x, i);
        Turned {
            quarter: i % 4,
            rest: s,
        }
    }
}
