// Which delays suit the settings of the wandering: at every offset that it can reach, the reader's taps must lie in a
// ring of 65536, which holds delays up to 65528.
#![tactic(auto)]

ghost use Rattle.std.specs.Prelude.{◌≡◌};
ghost use Rattle.std.specs.Float.Ieee as Ieee;
ghost use Rattle.delay_range.specs.Reach.{excursion_in, reach_of, suits_of};

use modulation_params::ModulationParams;
use oscillators::maximum_delay_excursion_samples;

// The largest distance of the delay from its middle: the excursions of wow and of flutter.
pub fn reach(params: ModulationParams, rate: f64) -> f64
    ensures { result ≡ reach_of params rate }
{
    let wow = excursion(params.wow_depth_cents, params.wow_rate_hz, rate);
    let flutter = excursion(params.flutter_depth_cents, params.flutter_rate_hz, rate);
    wow + flutter
}

// As in the engine, a depth below 0 counts as 0, and a rate below 0.001 as 0.001. Out of range the excursion is the
// length of the ring, which no delay suits.
#[tactic(auto, unfolding(crate::specs::Reach::excursion_in))]
fn excursion(depth: f64, frequency: f64, rate: f64) -> f64
    ensures { result ≡ excursion_in depth frequency rate }
{
    maximum_delay_excursion_samples(
        min_max::max(depth, 0.0),
        min_max::max(frequency, 0.001),
        rate,
    )
    .unwrap_or(65536.0)
}

// From both ends of the ring the delay is as far away as the wandering reaches, and 16 taps more.
pub fn suits(delay: f64, reach: f64) -> bool
    ensures { result ≡ suits_of delay reach }
{
    magnitude::within(delay, reach + 16.0, 65512.0 - reach)
}
