// What a picture shows of a stretch: the largest difference of two files' samples, and their largest sample.
#![tactic(auto)]

ghost use Rattle.std.specs.Prelude.{◌≡◌, max, get_or, set};
ghost use Rattle.peaks.specs.Peaks.{largest_of, raised};

use residual::Compared;

// The largest absolute difference of two lists of whole numbers, as the residual counts it; if one list is zeros it is
// the largest sample. It is 0 if the residual refuses the lists.
pub fn largest(a: &[i32], b: &[i32]) -> u32
    ensures { result ≡ largest_of a.now b.now }
{
    let compared = residual::compare(residual::empty(), a, b);
    match compared {
        Compared::Carried(report) => report.largest,
        Compared::Refused(_) => 0,
    }
}

// Raises the number at a place to at least n. A place past the end is ignored.
pub fn raise(peaks: &mut [u32], at: usize, n: u32)
    ensures { peaks.new ≡ raised peaks.old at n }
{
    if at < peaks.len() {
        peaks[at] = peaks[at].max(n);
    }
}
