// The engine's calls (001) on a state of 15 words (M1, M2, M5).
// Each returns the refusal number, 0 for none; a refused call leaves the words exactly as they were (D1c).
#![tactic(auto)]

ghost use Rattle.std.specs.Prelude.{◌≡◌};
ghost use Rattle.modulation_engine.specs.Engine.{opened_of, set_sample_rate_of, set_seed_of, reset_of};
ghost use Rattle.engine_calls.specs.Left.{renews, renewed_by, steps, stepped_by};

use modulation_engine::ModulationEngine;
use modulation_params::ModulationParams;
use packed_engine::{engine_of, words_left};

pub fn new(sample_rate: f64, seed: u64, words: &mut [u64; 15]) -> u8
    ensures { renews result words.new ≡
        renewed_by (λ e. opened_of sample_rate seed) words.old }
{
    let before = engine_of(*words);
    let opened = ModulationEngine::new(sample_rate, seed);
    let number = engine_answer_parts::number(opened);
    let after = engine_answer_parts::left_by(opened, before);
    *words = words_left(number, after, *words);
    number
}

pub fn set_sample_rate(words: &mut [u64; 15], sample_rate: f64) -> u8
    ensures { renews result words.new ≡
        renewed_by (λ e. set_sample_rate_of e sample_rate) words.old }
{
    let before = engine_of(*words);
    let opened = before.set_sample_rate(sample_rate);
    let number = engine_answer_parts::number(opened);
    let after = engine_answer_parts::left_by(opened, before);
    *words = words_left(number, after, *words);
    number
}

pub fn set_seed(words: &mut [u64; 15], seed: u64) -> u8
    ensures { renews result words.new ≡ renewed_by (λ e. set_seed_of e seed) words.old }
{
    let before = engine_of(*words);
    let opened = before.set_seed(seed);
    let number = engine_answer_parts::number(opened);
    let after = engine_answer_parts::left_by(opened, before);
    *words = words_left(number, after, *words);
    number
}

pub fn reset(words: &mut [u64; 15]) -> u8
    ensures { renews result words.new ≡ renewed_by (λ e. reset_of e) words.old }
{
    let before = engine_of(*words);
    let opened = before.reset();
    let number = engine_answer_parts::number(opened);
    let after = engine_answer_parts::left_by(opened, before);
    *words = words_left(number, after, *words);
    number
}

// M5. Writes the offsets of the two sides through pointers, 0.0 if the step is refused.
pub fn next(words: &mut [u64; 15], params: ModulationParams, left: &mut f64, right: &mut f64) -> u8
    ensures { steps result words.new left.new right.new
        ≡ stepped_by params words.old }
{
    let before = engine_of(*words);
    let next = modulation::next(before, params);
    let after = next.engine;
    let offset = next.offset;
    let number = engine_answer_parts::refusal(offset);
    *words = words_left(number, after, *words);
    *left = engine_answer_parts::left_of(offset);
    *right = engine_answer_parts::right_of(offset);
    number
}
