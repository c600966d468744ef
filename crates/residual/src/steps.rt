// W13. The counting: a difference, what it adds, and a stretch of differences.
ghost use Rattle.std.specs.Prelude.{◌≡◌, ◌+◌, ◌^◌, ◌<◌, ◌≤◌, true, length, if◌then◌else◌, nat_lt};
ghost use mathlib.Core.List.{foldl};
ghost use Rattle.residual.specs.Report.{difference, differences, carried};
ghost use Rattle.residual.specs.Refusals.{in24, verdict};
ghost use Rattle.residual.specs.Tallies.{step_of, Room, Ready};

use crate::Report;
use crate::parts::{added, squared};
use crate::tally::{Tally, taken, told};

pub(crate) fn distance(x: i32, y: i32) -> u32
    requires { (in24 x ≡ true) × (in24 y ≡ true) }
    ensures { result ≡ difference x y }
{
    (x - y).unsigned_abs()
}

fn chosen<T: Copy>(test: bool, a: T, b: T) -> T
    ensures { result ≡ (if test then a else b) }
{
    if test { a } else { b }
}

// The carry into the high half. The low half has wrapped around if it comes out below what was added.
pub(crate) fn carry(low: u64, added: u64) -> u64
    ensures { result ≡ (if nat_lt low added then 1 else 0) }
{
    if low < added { 1 } else { 0 }
}

// Counts one more difference.
fn step(t: Tally, d: u32) -> Tally
    requires { Room t 1 × (d < 2 ^ 24) }
    ensures { result ≡ step_of t d }
{
    let square = d as u64 * d as u64;
    let low = std::num::wrapping_add_u64(t.low, square);
    let high = t.high + carry(low, square);
    let number = t.number + 1;
    let above = t.largest < d;
    Tally {
        number: number,
        largest: chosen(above, d, t.largest),
        index: chosen(above, t.number, t.index),
        high: high,
        low: low,
    }
}

// Counts a stretch difference by difference.
fn stepped(t: Tally, a: &[i32], b: &[i32]) -> Tally
    requires { Ready t a.now b.now }
    ensures { result ≡ foldl step_of t (differences a.now b.now) }
{
    let mut now = t;
    for i in 0..a.len() {
        now = step(now, distance(a[i], b[i]));
    }
    now
}

// Counts a stretch of at most 256 differences: all at once if none is above the largest so far.
fn block(t: Tally, a: &[i32], b: &[i32]) -> Tally
    requires { Ready t a.now b.now × (length a.now ≤ 256) }
    ensures { result ≡ foldl step_of t (differences a.now b.now) }
{
    let p = squared(a, b, t.largest);
    if p.quiet {
        return added(t, a.len(), p);
    }
    stepped(t, a, b)
}

fn stretched(t: Tally, a: &[i32], b: &[i32]) -> Tally
    requires { Ready t a.now b.now }
    ensures { result ≡ foldl step_of t (differences a.now b.now) }
{
    let mut now = t;
    for (x, y) in a.chunks(256).zip(b.chunks(256)) {
        now = block(now, x, y);
    }
    now
}

// The report after a call that is not refused.
pub(crate) fn counted(report: Report, a: &[i32], b: &[i32]) -> Report
    requires { verdict report a.now b.now ≡ 0 }
    ensures { result ≡ carried report a.now b.now }
{
    told(stretched(taken(report), a, b))
}
