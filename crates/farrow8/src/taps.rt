// The eight taps of a reading.
ghost use Rattle.std.specs.Prelude.{◌≡◌, ◌+◌, ◌^◌, ◌≤◌, [], ◌∷◌, length, get_or};
ghost use Rattle.std.specs.Float.{nan};
ghost use Rattle.std.specs.Int.Signed.{mag};
ghost use Rattle.farrow8.specs.Kernel.{taps_at};

// Eight taps that stand side by side are read without a test for each.
pub(crate) fn side_by_side(source: &[f64], p: usize) -> [f64; 8]
    requires { p + 8 ≤ length source.now }
    ensures { result ≡ get_or source.now p nan ∷ get_or source.now (p + 1) nan
        ∷ get_or source.now (p + 2) nan ∷ get_or source.now (p + 3) nan
        ∷ get_or source.now (p + 4) nan ∷ get_or source.now (p + 5) nan
        ∷ get_or source.now (p + 6) nan ∷ get_or source.now (p + 7) nan ∷ [] }
{
    [
        source[p],
        source[p + 1],
        source[p + 2],
        source[p + 3],
        source[p + 4],
        source[p + 5],
        source[p + 6],
        source[p + 7],
    ]
}

// The eight taps around an index, each with its test.
pub(crate) fn one_by_one(source: &[f64], count: u64, i: i64) -> [f64; 8]
    requires { mag i ≤ 2 ^ 36 }
    ensures { result ≡ taps_at source.now count i }
{
    [
        ring::tap(source, count, i - 3),
        ring::tap(source, count, i - 2),
        ring::tap(source, count, i - 1),
        ring::tap(source, count, i),
        ring::tap(source, count, i + 1),
        ring::tap(source, count, i + 2),
        ring::tap(source, count, i + 3),
        ring::tap(source, count, i + 4),
    ]
}
