// Demand 3: how far the cubic reader's answers lie from the exact cubic, on samples and delays that are whole numbers,
// over runs of calls (D3).
#![tactic(auto)]

ghost use Rattle.runs.specs.Runs.{bare_call};
ghost use Rattle.cubic_bound.specs.Demand.{Demand3};

use variable_delay::{Processed, VariableDelay};

// The cubic reader's call with Demand 3 as its only promise: must-fail edits here show which wrong readers Demand 3
// alone refuses.
fn process_sample(state: VariableDelay, ring: &mut [f64], input: f64, delay: f64) -> Processed
    ensures { Demand3 (record { state = state; ring = ring.old }) (bare_call input delay) result.answer }
{
    cubic_delay::process_sample(state, &mut ring[..], input, delay)
}
