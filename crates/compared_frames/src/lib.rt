// Which frames of two files are compared, how many are left over, and the stretches that a picture shows them in.
#![tactic(auto)]

ghost use Rattle.std.specs.Prelude.{◌≡◌, ◌*◌, ◌/◌, min};
ghost use Rattle.compared_frames.specs.Compared.{span_of, asked_of, end_of, stretch_of, block_of};

use sizes::{fewer, less, plus};

// `frames` frames are compared, from frame `first` of the one file and frame `second` of the other on. The rest says
// what each file has after them.
#[derive(Clone, Copy)]
pub struct Extent {
    pub first: usize,
    pub second: usize,
    pub frames: usize,
    pub first_left: usize,
    pub second_left: usize,
}

// The extent for files of a and b frames, after the frames that are skipped in each. No number of frames means all.
pub fn span(a: usize, b: usize, first: usize, second: usize, frames: Option<u64>) -> Extent
    ensures { result ≡ span_of a b first second frames }
{
    let one = less(a, first);
    let two = less(b, second);
    let n = asked(frames, fewer(one, two));
    Extent {
        first: first,
        second: second,
        frames: n,
        first_left: less(one, n),
        second_left: less(two, n),
    }
}

fn asked(frames: Option<u64>, both: usize) -> usize
    ensures { result ≡ asked_of frames both }
{
    frames.map_or(both, |n| fewer(n as usize, both))
}

// The place where stretch k of n ends, k counted from 1 and n at most 1000: that many frames lie before it.
pub fn stretch_end(frames: usize, n: usize, k: usize) -> usize
    ensures { result ≡ end_of frames n k }
{
    if n == 0 {
        return frames;
    }
    if k >= n {
        return frames;
    }
    if n > 1000 {
        return frames;
    }
    k * (frames / n) + k * (frames % n) / n
}

// The stretch in which frame `done` lies, counted from 0, if that is k or the stretch after it.
pub fn stretch_of(frames: usize, n: usize, k: usize, done: usize) -> usize
    ensures { result ≡ stretch_of frames n k done }
{
    let next = plus(k, 1);
    if stretch_end(frames, n, next) <= done {
        return next;
    }
    k
}

// The number of frames compared at once if `left` are left of a stretch: at least one, so that a run ends.
pub fn block_of(left: usize) -> usize
    ensures { result ≡ block_of left }
{
    if left == 0 { 1 } else { fewer(left, 4096) }
}
