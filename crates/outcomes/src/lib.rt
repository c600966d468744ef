// How a run over a file's frames ended.
#![tactic(auto)]

ghost use Rattle.std.specs.Prelude.{◌≡◌};
ghost use Rattle.outcomes.specs.Outcomes.{outcome_of, side_of, misfit_at, is_well};

use refusal_order::both;
use sizes::plus;

// `io` is 0; or 1 if the file could not be read, for the reason that the system has; 2 if it became shorter; 3 if
// nothing more could be written, for the reason that the system has. `number` is 0, or the refusal of a sample, whose
// `frame` is counted from 0 and `channel` from 1.
#[derive(Clone, Copy)]
pub struct Outcome {
    pub io: u8,
    pub number: u8,
    pub frame: usize,
    pub channel: u8,
}

pub fn well() -> Outcome
    ensures { result ≡ outcome_of 0 0 0 0 }
{
    broken(0)
}

pub fn broken(io: u8) -> Outcome
    ensures { result ≡ outcome_of io 0 0 0 }
{
    Outcome {
        io: io,
        number: 0,
        frame: 0,
        channel: 0,
    }
}

pub fn refused_at(number: u8, frame: usize, channel: u8) -> Outcome
    ensures { result ≡ outcome_of 0 number frame channel }
{
    Outcome {
        io: 0,
        number: number,
        frame: frame,
        channel: channel,
    }
}

fn side_of(at: usize) -> u8
    ensures { result ≡ side_of at }
{
    if at % 2 == 0 { 1 } else { 2 }
}

// Refusal 15 of the sample at a place among the samples of all channels, which alternate, after `done` frames.
pub fn misfit_at(channels: u8, done: usize, at: usize) -> Outcome
    ensures { result ≡ misfit_at channels done at }
{
    if channels == 2 {
        return refused_at(15, plus(done, at / 2), side_of(at));
    }
    refused_at(15, plus(done, at), 1)
}

pub fn is_well(outcome: Outcome) -> bool
    ensures { result ≡ is_well outcome }
{
    both(outcome.io == 0, outcome.number == 0)
}
