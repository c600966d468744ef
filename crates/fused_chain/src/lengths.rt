// How far each part of a run goes.
ghost use Rattle.std.specs.Prelude.{◌≡◌, ◌+◌, ◌<◌, ◌≤◌, min};

pub(crate) fn least(a: usize, b: usize) -> usize
    ensures { result ≡ min a b }
{
    if a <= b { a } else { b }
}

// The turn m turns further on, or the end if that comes first.
pub(crate) fn ahead(k: usize, m: usize, n: usize) -> usize
    requires { k ≤ n }
    ensures { result ≡ min (k + m) n }
{
    if n - k < m { n } else { k + m }
}

// How far to go one tap at a time after a fast run stopped: four taps, or 32 if the sum is zero, because a sum often
// stays zero for long and silence must not be slow.
pub(crate) fn stretch(k: usize, n: usize, sum: f64) -> usize
    requires { k ≤ n }
    ensures { (k ≤ result) × (result ≤ n) × (k < n → k < result) }
{
    if sum == 0.0 {
        return ahead(k, 32, n);
    }
    ahead(k, 4, n)
}
