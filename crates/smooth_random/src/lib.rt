// The original's SmoothRandom (001): a generator, the two targets that it drew last, and the way from one to the other.
// Each method takes the state by value and returns the new one, with the number that it draws, if any (F8). A state
// that is out of range is refused and handed back as it was (N3).
#![tactic(auto)]

mod draws; // the numbers that are made of the generator
mod drift; // a step from one target towards the next
mod seeds; // a new state from a seed, a new seed, and the start again

ghost use Rattle.std.specs.Prelude.{◌≡◌, ◌&&◌};
ghost use Rattle.smooth_random.specs.Ranges.{valid_of};

use refusal_order::both;

#[derive(Clone, Copy)]
pub struct SmoothRandom {
    pub initial_seed: u64,
    pub state: u64,
    pub current: f64,
    pub next: f64,
    pub position: f64,
    pub segment_rate_scale: f64,
}

// A draw: the state after it, the number drawn, and the number of the refusal, 0 for none.
#[derive(Clone, Copy)]
pub struct Drawn {
    pub random: SmoothRandom,
    pub value: f64,
    pub refusal: u8,
}

// A reset or a new seed: the state after it, and the number of the refusal, 0 for none.
#[derive(Clone, Copy)]
pub struct Renewed {
    pub random: SmoothRandom,
    pub refusal: u8,
}

// A step of the drift: the state after it, the value before it, and the number of the refusal, 0 for none.
#[derive(Clone, Copy)]
pub struct Next {
    pub random: SmoothRandom,
    pub value: f64,
    pub refusal: u8,
}

impl SmoothRandom {
    // G8. Whether every field is in its range.
    pub fn valid(self) -> bool
        ensures { result ≡ valid_of self }
    {
        let position = both(0.0 <= self.position, self.position < 1.0);
        let targets = both(
            magnitude::within(self.current, -1.0, 1.0),
            magnitude::within(self.next, -1.0, 1.0),
        );
        let pace = magnitude::within(self.segment_rate_scale, 0.65, 1.35);
        let seeds = both(self.state != 0, self.initial_seed != 0);
        both(position, both(targets, both(pace, seeds)))
    }
}
