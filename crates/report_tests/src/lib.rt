// The tests of a residual's call that concern numbers alone (W13g).
// They test the values of a stretch (1), the numbers of a carried report (3), and how many samples there are in all
// (8).
#![tactic(auto)]

ghost use Rattle.std.specs.Prelude.{◌≡◌, ◌+◌, ◌*◌, ◌^◌, ◌<◌, ◌≤◌, leb};
ghost use Rattle.report_tests.specs.Tests.{in24, all24, numbers_ok, room_for};

use constants::LIMIT;
use refusal_order::both;

fn in_24(x: i32) -> bool
    ensures { result ≡ in24 x }
{
    both(-8388608 <= x, x <= 8388607)
}

// Test 1. Every value is looked at without an early exit, so that the compiler takes several at once.
pub fn all_24(s: &[i32]) -> bool
    ensures { result ≡ all24 s.now }
{
    let mut ok = true;
    for x in s {
        ok = both(ok, in_24(*x));
    }
    ok
}

fn at_least(high: u64, low: u64, square: u64) -> bool
    ensures { result ≡ leb square (high * 2 ^ 64 + low) }
{
    if high > 0 { true } else { square <= low }
}

// Both sides are divided by 2^24 with remainder, so that each part fits a word: number × square is below 2^85.
fn at_most(high: u64, low: u64, number: u64, square: u64) -> bool
    requires { (number ≤ 2 ^ 36) × (square < 2 ^ 48) }
    ensures { result ≡ leb (high * 2 ^ 64 + low) (number * square) }
{
    if high > 0x10_0000 {
        return false;
    }
    let rest = number * (square % 0x100_0000);
    let top = number * (square / 0x100_0000) + rest / 0x100_0000;
    let sum = high * 0x100_0000_0000 + low / 0x100_0000;
    if sum < top {
        return true;
    }
    if top < sum {
        return false;
    }
    low % 0x100_0000 <= rest % 0x100_0000
}

// Test 3: the number, the largest difference and the sum of squares (high * 2^64 + low) of a carried report.
pub fn numbers_ok(number: u64, largest: u32, high: u64, low: u64) -> bool
    ensures { result ≡ numbers_ok number largest (high * 2 ^ 64 + low) }
{
    if number > LIMIT {
        return false;
    }
    if largest > 16777215 {
        return false;
    }
    let square = largest as u64 * largest as u64;
    both(
        at_least(high, low, square),
        at_most(high, low, number, square),
    )
}

// Test 8: no more than 2^36 samples in all. Any number may be handed in.
pub fn fits(number: u64, more: usize) -> bool
    ensures { result ≡ room_for number more }
{
    if number > LIMIT {
        return false;
    }
    more as u64 <= LIMIT - number
}
