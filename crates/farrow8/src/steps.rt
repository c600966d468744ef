// K4. Horner's rule over the sums of the powers, by fused steps.
ghost use Rattle.std.specs.Prelude.{◌≡◌, T};
ghost use Rattle.std.specs.Float.Ieee.Scale.{finite};
ghost use Rattle.farrow8.specs.Kernel.{horner};

use farrow8_powers::Powers;

// Horner's rule by ordinary float operations. If one step cannot be decided it gives a NaN, and then so do all that
// follow.
pub(crate) fn quick(s: Powers, mu: f64) -> f64
    ensures { T (finite result) → result ≡ horner s mu }
{
    let p6 = near_fused::near_fused(s.s7, mu, s.s6);
    let p5 = near_fused::near_fused(p6, mu, s.s5);
    let p4 = near_fused::near_fused(p5, mu, s.s4);
    let p3 = near_fused::near_fused(p4, mu, s.s3);
    let p2 = near_fused::near_fused(p3, mu, s.s2);
    let p1 = near_fused::near_fused(p2, mu, s.s1);
    near_fused::near_fused(p1, mu, s.s0)
}

// Horner's rule on whole numbers, which serves every input.
pub(crate) fn slow(s: Powers, mu: f64) -> f64
    ensures { result ≡ horner s mu }
{
    let p6 = fused64::fused64(s.s7, mu, s.s6);
    let p5 = fused64::fused64(p6, mu, s.s5);
    let p4 = fused64::fused64(p5, mu, s.s4);
    let p3 = fused64::fused64(p4, mu, s.s3);
    let p2 = fused64::fused64(p3, mu, s.s2);
    let p1 = fused64::fused64(p2, mu, s.s1);
    fused64::fused64(p1, mu, s.s0)
}

// Horner's rule over the sums, on whole numbers only if the quick way cannot decide.
pub(crate) fn over(s: Powers, mu: f64) -> f64
    ensures { result ≡ horner s mu }
{
    let r = quick(s, mu);
    if magnitude::is_finite(r) {
        return r;
    }
    slow(s, mu)
}
