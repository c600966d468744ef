// M5. One step of the drift: the value at the position, then the position moved on.
ghost use Rattle.std.specs.Prelude.{◌≡◌};
ghost use Rattle.smooth_random.specs.Ranges.{verdict};
ghost use Rattle.smooth_random.specs.Drift.{value_at, advanced, turned, next_of};

use super::{Next, SmoothRandom};
use refusal_order::both;

impl SmoothRandom {
    // The original's loop (001) runs at most once, because a step adds at most 1000 * 1.35 / 8000 to a position below
    // 1. In most steps it does not run, and nothing is drawn.
    pub fn next(self, rate_hz: f64, sample_rate: f64) -> Next
        ensures { result ≡ next_of self rate_hz sample_rate }
    {
        let refusal = self.refusal(rate_hz, sample_rate);
        if refusal != 0 {
            return Next {
                random: self,
                value: 0.0,
                refusal,
            };
        }
        let value = self.value();
        let moved = self.advance(rate_hz, sample_rate);
        let random = if moved.position >= 1.0 {
            moved.turn()
        } else {
            moved
        };
        Next {
            random,
            value,
            refusal: 0,
        }
    }

    // N1, N3, N9. The number of the lowest refusal, 0 for none.
    fn refusal(self, rate_hz: f64, sample_rate: f64) -> u8
        ensures { result ≡ verdict self rate_hz sample_rate }
    {
        let arguments = both(
            magnitude::within(rate_hz, 0.0, 1000.0),
            magnitude::within(sample_rate, 8000.0, 768000.0),
        );
        if arguments {
            if self.valid() { 0 } else { 3 }
        } else {
            1
        }
    }

    // The value at the position, on a smooth curve from one target to the next.
    fn value(self) -> f64
        ensures { result ≡ value_at self }
    {
        let t = min_max::clamp(self.position, 0.0, 1.0);
        let quintic = t * t * t * (t * (t * 6.0 - 15.0) + 10.0);
        self.current + quintic * (self.next - self.current)
    }

    fn advance(mut self, rate_hz: f64, sample_rate: f64) -> SmoothRandom
        ensures { result ≡ advanced self rate_hz sample_rate }
    {
        self.position = self.position + rate_hz * self.segment_rate_scale / sample_rate;
        self
    }

    // One round of 001's loop: a segment has ended, so the next one begins.
    fn turn(self) -> SmoothRandom
        ensures { result ≡ turned self }
    {
        let first = self.bipolar();
        let once = first.random;
        let second = once.scale();
        let mut random = second.random;
        random.position = self.position - 1.0;
        random.current = self.next;
        random.next = first.value;
        random.segment_rate_scale = second.value;
        random
    }
}
