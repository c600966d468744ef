// W13g. The tests of a call, for every input, and the number of the first that fails.
ghost use Rattle.std.specs.Prelude.{◌≡◌};
ghost use Rattle.residual.specs.Refusals.{place_ok, report_ok, verdict};

use crate::Report;
use refusal_order::both;
use report_tests::{all_24, fits, numbers_ok};

fn place_ok(p: Option<u64>, number: u64) -> bool
    ensures { result ≡ place_ok p number }
{
    match p {
        None => number == 0,
        Some(k) => k < number,
    }
}

// Test 3: every field of a carried report is in its range.
fn report_ok(r: Report) -> bool
    ensures { result ≡ report_ok r }
{
    let p = r.place;
    both(
        place_ok(p, r.number),
        numbers_ok(r.number, r.largest, r.high, r.low),
    )
}

pub(crate) fn due(report: Report, a: &[i32], b: &[i32]) -> u8
    ensures { result ≡ verdict report a.now b.now }
{
    let t1 = both(all_24(a), all_24(b));
    let t2 = a.len() == b.len();
    let t3 = report_ok(report);
    let t8 = fits(report.number, a.len());
    answer::first(t1, t2, t3, true, true, true, true, t8)
}
