// A run of numbers that may start below 0: where it starts, and how many of its numbers lie below a bound.
ghost use Rattle.std.specs.Prelude.{◌≡◌, ◌-◌, ◌<◌, ◌^◌, pos, ◌-ℤ◌};
ghost use Rattle.absent_taps.specs.Inner.{start_of, below_of};

// The run has `low` numbers below 0 and then goes on from the number `from`; one of the two is 0.
#[derive(Clone, Copy)]
pub struct Start {
    pub low: u64,
    pub from: u64,
}

// The difference a less b, or 0 if b is larger.
pub(crate) fn less(a: u64, b: u64) -> u64
    ensures { result ≡ a - b }
{
    if a < b { 0 } else { a - b }
}

// The run that starts `back` before a number.
pub(crate) fn first(whole: i64, back: u64) -> Start
    requires { back < 2 ^ 63 }
    ensures { result ≡ start_of (whole -ℤ pos back) }
{
    if whole < 0 {
        let j = (-1 - whole) as u64;
        return Start {
            low: j + 1 + back,
            from: 0,
        };
    }
    let k = whole as u64;
    if k < back {
        return Start {
            low: back - k,
            from: 0,
        };
    }
    Start {
        low: 0,
        from: k - back,
    }
}

// The number of the first `taps` numbers of a run that lie below a bound. The order of the tests avoids every sum that
// could overflow.
pub(crate) fn below(low: u64, from: u64, bound: u64, taps: u64) -> u64
    ensures { result ≡ below_of low from bound taps }
{
    if taps <= low {
        return taps;
    }
    if bound < from {
        return low;
    }
    if taps - low <= bound - from {
        return taps;
    }
    low + (bound - from)
}
