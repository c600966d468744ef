// M1, M2, M3. A new state from a seed, a new seed for a state, and the start again.
ghost use Rattle.std.specs.Prelude.{◌≡◌};
ghost use Rattle.smooth_random.specs.Drift.{new_of, reset_of, set_seed_of, renewed};

use super::{Renewed, SmoothRandom};

impl SmoothRandom {
    pub fn new(seed: u64) -> SmoothRandom
        ensures { result ≡ new_of seed }
    {
        let seed = xorshift::normalized_seed(seed);
        let result = SmoothRandom {
            initial_seed: seed,
            state: seed,
            current: 0.0,
            next: 0.0,
            position: 0.0,
            segment_rate_scale: 1.0,
        };
        result.restarted()
    }

    // M2. Setting the seed that is already held does nothing.
    pub fn set_seed(self, seed: u64) -> Renewed
        ensures { result ≡ renewed self (set_seed_of self seed) }
    {
        self.handed_back(self.seeded(seed))
    }

    // M3. Starts again from the initial seed, which draws three times.
    pub fn reset(self) -> Renewed
        ensures { result ≡ renewed self (reset_of self) }
    {
        self.handed_back(self.restarted())
    }

    // N3. Gives the state afterwards, or refuses one that was out of range.
    fn handed_back(self, after: SmoothRandom) -> Renewed
        ensures { result ≡ renewed self after }
    {
        if self.valid() {
            Renewed {
                random: after,
                refusal: 0,
            }
        } else {
            Renewed {
                random: self,
                refusal: 3,
            }
        }
    }

    fn seeded(mut self, seed: u64) -> SmoothRandom
        ensures { result ≡ set_seed_of self seed }
    {
        let seed = xorshift::normalized_seed(seed);
        if seed == self.initial_seed {
            return self;
        }
        self.initial_seed = seed;
        self.restarted()
    }

    // Only the initial seed of the state counts.
    fn restarted(mut self) -> SmoothRandom
        ensures { result ≡ reset_of self }
    {
        self.state = self.initial_seed;
        let first = self.bipolar();
        let once = first.random;
        let second = once.bipolar();
        let twice = second.random;
        let third = twice.scale();
        let mut random = third.random;
        random.current = first.value;
        random.next = second.value;
        random.segment_rate_scale = third.value;
        random.position = 0.0;
        random
    }
}
