// The delay of an oversampled reader's inner reader at each phase between two host samples (W11e).
#![tactic(auto)]

ghost use Rattle.std.specs.Prelude.{◌≡◌};
ghost use Rattle.high_delay.specs.Between.{high_delay};

// 000's `delay * FACTOR as f64`. `next` is the phase plus one, so that the last phase of a factor is the factor itself.
pub fn high_delay(previous: f64, delay: f64, next: u64, factor: u64) -> f64
    ensures { result ≡ high_delay previous delay next factor }
{
    let rate = std::num::nearest_u64_to_f64(factor);
    let fraction = std::num::nearest_u64_to_f64(next) / rate;
    (previous + fraction * (delay - previous)) * rate
}
