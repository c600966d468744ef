// The ranges of the arguments of the oscillators and the engine (G4, G6, G7).
// A NaN lies in none of them.
#![tactic(auto)]

ghost use Rattle.std.specs.Prelude.{◌≡◌};
ghost use Rattle.oscillator_ranges.specs.Ranges.{rate_ok, depth_ok, phase_ok, cycle_ok, sample_rate_ok};
ghost use Rattle.oscillator_ranges.specs.Ranges.{minimum_rate_ok};

pub const TAU: f64 = 6.283185307179586;

// G7. A rate in Hz lies from -1000 to 1000.
pub fn rate_ok(rate_hz: f64) -> bool
    ensures { result ≡ rate_ok rate_hz }
{
    magnitude::within(rate_hz, -1000.0, 1000.0)
}

// G7. A depth in cents lies from -1200 to 1200.
pub fn depth_ok(depth_cents: f64) -> bool
    ensures { result ≡ depth_ok depth_cents }
{
    magnitude::within(depth_cents, -1200.0, 1200.0)
}

// G4. The phase given to shape_primitive lies from -51 to 51.
pub fn phase_ok(phase: f64) -> bool
    ensures { result ≡ phase_ok phase }
{
    magnitude::within(phase, -51.0, 51.0)
}

// G8. The phase that an engine keeps is at least 0 and below TAU.
pub fn cycle_ok(phase: f64) -> bool
    ensures { result ≡ cycle_ok phase }
{
    if 0.0 <= phase { phase < TAU } else { false }
}

// G6. A sample rate lies from 8000 to 768000.
pub fn sample_rate_ok(sample_rate: f64) -> bool
    ensures { result ≡ sample_rate_ok sample_rate }
{
    magnitude::within(sample_rate, 8000.0, 768000.0)
}

// G7. The minimum rate of maximum_delay_excursion_samples lies from 0.001 to 1000.
pub fn minimum_rate_ok(min_rate_hz: f64) -> bool
    ensures { result ≡ minimum_rate_ok min_rate_hz }
{
    magnitude::within(min_rate_hz, 0.001, 1000.0)
}
