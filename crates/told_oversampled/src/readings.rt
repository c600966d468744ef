// The inner readings of one call, from which of its inner samples were accepted: a refused one is not read (W11d).
ghost use Rattle.std.specs.Prelude.{◌≡◌, ◌+◌, ◌^◌, ◌≤◌, true, if◌then◌else◌, nat_eq};
ghost use Rattle.std.specs.Float.Ieee as Ieee;
ghost use Rattle.std.specs.Float.Ieee.Scale.{finite};
ghost use Rattle.high_delay.specs.Between.{num, high_delay};
ghost use Rattle.fir_filter.specs.Filters.{output_of};
ghost use Rattle.told_oversampled.specs.Reckoned.{Room, which_of, with_reading, reckoned};

use absent_taps::Absent;

// Whether each inner sample of a call was accepted. At the factor 2 the first two count.
#[derive(Clone, Copy)]
pub struct Accepted {
    pub first: bool,
    pub second: bool,
    pub third: bool,
    pub fourth: bool,
}

// The inner accepted number before the next reading, and the sums over the readings before it.
#[derive(Drop)]
pub struct Sums {
    pub inner: u64,
    pub absent: Absent,
}

// The previous delay of a call: the first call starts at its own delay. It is an f64, as the law that bounds the inner
// delays wants to know.
pub(crate) fn start(accepted: u64, previous: f64, delay: f64) -> f64
    ensures value { result ≡ (if nat_eq accepted 0 then delay else previous) }
    ensures result_value { Ieee.fits Ieee.binary64 result ≡ true }
{
    if accepted == 0 { delay } else { previous }
}

// Whether what an upsampler gives at a phase, times its factor, is finite, so that the inner reader accepts it.
pub(crate) fn accepts<'a>(
    coefficients: &'a [f64],
    history: &'a [f64],
    pushes: u64,
    factor: usize,
    phase: usize,
) -> bool
    ensures { result ≡ finite (Ieee.mul Ieee.binary64
        (output_of coefficients.now history.now pushes factor phase) (num factor)) }
{
    let rate = std::num::nearest_u64_to_f64(factor as u64);
    magnitude::is_finite(fir_filter::output(coefficients, history, pushes, factor, phase) * rate)
}

fn which(accepted: Accepted, k: usize) -> bool
    ensures { result ≡ which_of accepted k }
{
    match k {
        0 => accepted.first,
        1 => accepted.second,
        2 => accepted.third,
        _ => accepted.fourth,
    }
}

// One inner sample more.
fn with_reading(s: Sums, accepted: bool, len: usize, delay: f64, taps: u64) -> Sums
    requires { Room s × (taps ≤ 128) }
    ensures { result ≡ with_reading accepted len delay taps s }
{
    if accepted {
        let next = s.inner + 1;
        let sums = s.absent;
        let one = told_call::of_call(len, s.inner, next, delay, taps);
        return Sums {
            inner: next,
            absent: Absent {
                unwritten: sums.unwritten + one.unwritten,
                ahead: sums.ahead + one.ahead,
                overwritten: sums.overwritten + one.overwritten,
            },
        };
    }
    s
}

// The sums over all inner readings of a call. `inner` is the inner accepted number before it, `len` the inner ring's
// length, `from` the previous delay.
pub(crate) fn summed(
    accepted: Accepted,
    factor: usize,
    inner: u64,
    from: f64,
    delay: f64,
    len: usize,
    taps: u64,
) -> Absent
    requires { (factor ≤ 4) × (inner ≤ 2 ^ 36) × (taps ≤ 128) }
    ensures { result ≡ (reckoned (which_of accepted) (λ k. high_delay from delay (k + 1) factor) len taps inner
        factor).absent }
{
    let mut s = Sums {
        inner: inner,
        absent: absent_taps::nothing(),
    };
    let mut k: usize = 0;
    while k < factor {
        let y = high_delay::high_delay(from, delay, k as u64 + 1, factor as u64);
        s = with_reading(s, which(accepted, k), len, y, taps);
        k += 1;
    }
    s.absent
}
