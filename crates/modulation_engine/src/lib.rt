// The original's ModulationEngine (001) except for its step: opening, setting the sample rate or the seed, and reset
// (M1, M2).
// The state goes in by value and comes back. A state that is out of range is refused, and then nothing has changed.
#![tactic(auto)]

mod state; // which states are valid, and the number of the refusal

ghost use Rattle.std.specs.Prelude.{◌≡◌};
ghost use Rattle.modulation_engine.specs.Engine.{opened_by, opened_of, set_sample_rate_of, set_seed_of, reset_of};

use oscillator_ranges as ranges;
use smooth_random::SmoothRandom;

#[derive(Clone, Copy)]
pub struct ModulationEngine {
    pub sample_rate: f64,
    pub wow_phase: f64,
    pub flutter_phase: f64,
    pub wow_drift: SmoothRandom,
    pub flutter_drift: SmoothRandom,
}

// An engine, or the number of a refusal.
#[derive(Clone, Copy)]
pub enum Opened {
    Engine(ModulationEngine),
    Refused(u8),
}

// The engine if the refusal is 0, which stands for none; otherwise the refusal.
fn handed_back(refusal: u8, engine: ModulationEngine) -> Opened
    ensures { result ≡ opened_by refusal engine }
{
    if refusal == 0 {
        Opened::Engine(engine)
    } else {
        Opened::Refused(refusal)
    }
}

impl ModulationEngine {
    pub fn new(sample_rate: f64, seed: u64) -> Opened
        ensures { result ≡ opened_of sample_rate seed }
    {
        let flutter_seed = xorshift::flutter_seed(seed);
        if ranges::sample_rate_ok(sample_rate) {
            let wow = SmoothRandom::new(seed);
            let flutter = SmoothRandom::new(flutter_seed);
            Opened::Engine(ModulationEngine {
                sample_rate,
                wow_phase: 0.0,
                flutter_phase: 0.0,
                wow_drift: wow,
                flutter_drift: flutter,
            })
        } else {
            Opened::Refused(1)
        }
    }

    // Outside its range 001 keeps the old rate without a word; here that is refused.
    pub fn set_sample_rate(mut self, sample_rate: f64) -> Opened
        ensures { result ≡ set_sample_rate_of self sample_rate }
    {
        let refusal = self.refusal(ranges::sample_rate_ok(sample_rate));
        self.sample_rate = sample_rate;
        handed_back(refusal, self)
    }

    // M2. Each generator compares the seed with its own.
    pub fn set_seed(mut self, seed: u64) -> Opened
        ensures { result ≡ set_seed_of self seed }
    {
        let refusal = self.refusal(true);
        let wow = self.wow_drift;
        let flutter = self.flutter_drift;
        let wow = wow.set_seed(seed);
        let flutter = flutter.set_seed(xorshift::flutter_seed(seed));
        let wow = wow.random;
        let flutter = flutter.random;
        self.wow_drift = wow;
        self.flutter_drift = flutter;
        handed_back(refusal, self)
    }

    pub fn reset(mut self) -> Opened
        ensures { result ≡ reset_of self }
    {
        let refusal = self.refusal(true);
        let wow = self.wow_drift;
        let flutter = self.flutter_drift;
        let wow = wow.reset();
        let flutter = flutter.reset();
        let wow = wow.random;
        let flutter = flutter.random;
        self.wow_phase = 0.0;
        self.flutter_phase = 0.0;
        self.wow_drift = wow;
        self.flutter_drift = flutter;
        handed_back(refusal, self)
    }
}
