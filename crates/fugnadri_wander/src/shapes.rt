// The oscillator functions for C (M4, M5, G4, G7): each returns the refusal number, 0 for none, and writes the value
// (0.0 if refused) through a pointer.
ghost use Rattle.std.specs.Prelude.{◌≡◌};
ghost use Rattle.elementary.specs.Answers.{refusal_of};
ghost use Rattle.oscillators.specs.Answers.{speed_delta_of, advance_phase_of, shape_primitive_of, oscillator_delay_of};
ghost use Rattle.oscillators.specs.Answers.{excursion_of, rate_delta_of};
ghost use Rattle.answer_parts.specs.Values.{value_of};

use answer_parts::values::handed;

#[unsafe(no_mangle)]
pub extern "C" fn fugnadri_speed_delta(depth_cents: f64, res: &mut f64) -> u8
    ensures value { result ≡ refusal_of (speed_delta_of depth_cents) }
    ensures res_after { res.new ≡ value_of (speed_delta_of depth_cents) }
{
    handed(oscillators::speed_delta(depth_cents), res)
}

#[unsafe(no_mangle)]
pub extern "C" fn fugnadri_advance_phase(
    phase: f64,
    rate_hz: f64,
    sample_rate: f64,
    res: &mut f64,
) -> u8
    ensures value { result ≡ refusal_of (advance_phase_of phase rate_hz sample_rate) }
    ensures res_after { res.new ≡ value_of (advance_phase_of phase rate_hz sample_rate) }
{
    handed(oscillators::advance_phase(phase, rate_hz, sample_rate), res)
}

#[unsafe(no_mangle)]
pub extern "C" fn fugnadri_shape_primitive(phase: f64, shape: f64, res: &mut f64) -> u8
    ensures value { result ≡ refusal_of (shape_primitive_of phase shape) }
    ensures res_after { res.new ≡ value_of (shape_primitive_of phase shape) }
{
    handed(oscillators::shape_primitive(phase, shape), res)
}

#[unsafe(no_mangle)]
pub extern "C" fn fugnadri_oscillator_delay(
    phase: f64,
    rate_hz: f64,
    depth_cents: f64,
    shape: f64,
    sample_rate: f64,
    res: &mut f64,
) -> u8
    ensures value { result ≡ refusal_of (oscillator_delay_of phase rate_hz depth_cents shape sample_rate) }
    ensures res_after { res.new ≡
        value_of (oscillator_delay_of phase rate_hz depth_cents shape sample_rate) }
{
    handed(
        oscillators::oscillator_delay(phase, rate_hz, depth_cents, shape, sample_rate),
        res,
    )
}

#[unsafe(no_mangle)]
pub extern "C" fn fugnadri_maximum_delay_excursion_samples(
    max_depth_cents: f64,
    min_rate_hz: f64,
    sample_rate: f64,
    res: &mut f64,
) -> u8
    ensures value { result ≡ refusal_of (excursion_of max_depth_cents min_rate_hz sample_rate) }
    ensures res_after { res.new ≡ value_of (excursion_of max_depth_cents min_rate_hz sample_rate) }
{
    handed(
        oscillators::maximum_delay_excursion_samples(max_depth_cents, min_rate_hz, sample_rate),
        res,
    )
}

#[unsafe(no_mangle)]
pub extern "C" fn fugnadri_maximum_rate_delta(depths_cents: &[f64], res: &mut f64) -> u8
    ensures value { result ≡ refusal_of (rate_delta_of depths_cents.now) }
    ensures res_after { res.new ≡ value_of (rate_delta_of depths_cents.now) }
{
    handed(oscillators::maximum_rate_delta(depths_cents), res)
}
