// The program that tries the bound of docs/DEMAND3.md on many calls.
// Whole samples and delays, random ones and ones that look bad for rounding, go through the cubic reader, and beside
// each answer the exact value is worked out in whole numbers from the samples alone. It writes how many calls were
// made, how many answers were no samples or lay further than 2^-50 away, and the largest distance seen, in 2^-54. The
// ring is 64 long.
#![tactic(auto)]

mod distance;
mod exact;
mod kinds;
mod seen; // what was seen in all calls, and its report
mod whole;

use exact::{RING, exact};
use kinds::{delay, next, sample, sample_float};
use seen::{Seen, report, seen_too};
use variable_delay::{Opened, VariableDelay};
use whole::plus;

const RUNS: u64 = 256;

const CALLS: usize = 4096;

// The state between two calls of a run: the generator, the reader, and what was seen.
#[derive(Clone, Copy)]
struct Turn {
    g: u64,
    state: VariableDelay,
    seen: Seen,
}

fn tell(told: &mut [u64], i: usize, s: u64) {
    if let Some(place) = told.get_mut(i) {
        *place = s;
    }
}

// Call number i of a run; `told` has the samples before it.
fn call(
    samples: u64,
    delays: u64,
    i: usize,
    ring: &mut [f64],
    told: &mut [u64],
    turn: Turn,
) -> Turn {
    let g = next(turn.g);
    let h = next(g);
    let s = sample(samples, i, g);
    let d = delay(delays, h);
    tell(&mut told[..], i, s);
    let y = std::num::nearest_u64_to_f64(d) / 65536.0;
    let r = cubic_delay::process_sample(turn.state, &mut ring[..], sample_float(s), y);
    Turn {
        g: h,
        state: r.state,
        seen: seen_too(turn.seen, r.answer, exact(&told[..], plus(i as u64, 1), d)),
    }
}

fn opened(ring: &mut [f64]) -> VariableDelay {
    let o = variable_delay::open(40, 4, &mut ring[..]);
    match o {
        Opened::Reader(d) => d,
        Opened::Refused(_) => VariableDelay {
            maximum: 40,
            margin: 4,
            accepted: 0,
        },
    }
}

// A run from opening on, with one kind of samples and one kind of delays.
fn run(samples: u64, delays: u64, seed: u64, seen: Seen) -> Seen {
    let mut ring = [0.0f64; RING];
    let mut told = [0u64; CALLS];
    let mut turn = Turn {
        g: seed,
        state: opened(&mut ring),
        seen,
    };
    for i in 0..CALLS {
        turn = call(samples, delays, i, &mut ring, &mut told, turn);
    }
    turn.seen
}

fn main(rt: HostRuntime) {
    let seen = (0..RUNS).fold(Seen::default(), |seen, k| run(k / 4 % 4, k % 4, k, seen));
    report(&rt, seen);
}
