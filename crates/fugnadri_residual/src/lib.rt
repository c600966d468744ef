// The residual as plain numbers, which the static library fugnadri_residual_c exports for C and Rust (W13).
// There is no enum and no struct. The function accepts every input, and its contract is that of `residual::compare`.
#![tactic(auto)]

ghost use Rattle.std.specs.Prelude.{◌≡◌};
ghost use Rattle.fugnadri_residual.specs.Words.{place_from, placed_of, index_or, numbers, leaves, left_from};

use residual::{Compared, Report};

fn place_from(placed: u8, index: u64) -> Option<u64>
    ensures { result ≡ place_from placed index }
{
    if placed == 0 {
        return None;
    }
    if placed == 1 {
        return Some(index);
    }
    Some(0xFFFF_FFFF_FFFF_FFFF)
}

fn placed_of(p: Option<u64>) -> u8
    ensures { result ≡ placed_of p }
{
    match p {
        None => 0,
        Some(_) => 1,
    }
}

fn index_or(p: Option<u64>, index: u64) -> u64
    ensures { result ≡ index_or p index }
{
    match p {
        None => index,
        Some(k) => k,
    }
}

// The six numbers of the report go in and, if the call is not refused, come out extended. The refusal number is
// returned, 0 for none.
pub fn fugnadri_residual_compare(
    number: &mut u64,
    largest: &mut u32,
    placed: &mut u8,
    place: &mut u64,
    high: &mut u64,
    low: &mut u64,
    a: &[i32],
    b: &[i32],
) -> u8
    ensures { leaves result
        (numbers number.new largest.new placed.new place.new
        high.new low.new)
        ≡ left_from
        (numbers number.old largest.old placed.old place.old
        high.old low.old)
        a.now b.now }
{
    let report = Report {
        number: *number,
        largest: *largest,
        place: place_from(*placed, *place),
        high: *high,
        low: *low,
    };
    let c = residual::compare(report, a, b);
    match c {
        Compared::Refused(no) => no,
        Compared::Carried(r) => {
            let p = r.place;
            *number = r.number;
            *largest = r.largest;
            *placed = placed_of(p);
            *place = index_or(p, *place);
            *high = r.high;
            *low = r.low;
            0
        }
    }
}
