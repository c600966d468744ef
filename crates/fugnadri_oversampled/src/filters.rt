// The filters of the oversampled readers for C (W11a, W11g): their design, and one filter over a factor and a phase.
ghost use Rattle.std.specs.Prelude.{◌≡◌, ◌+◌};
ghost use Rattle.filter_settings.specs.Lengths.{history_for, latency_for, cascade_latency};
ghost use Rattle.fir_filter.specs.Filters.{kept_in, pushed, output_of};
ghost use Rattle.fir_filter.specs.Pairs.{two_of};
ghost use Rattle.fugnadri_oversampled.specs.Designs.{designs, design_of};

#[unsafe(no_mangle)]
pub extern "C" fn fugnadri_design_lowpass(
    taps: usize,
    cutoff: f64,
    beta: f64,
    out: &mut [f64],
) -> u8
    ensures { designs result out.new ≡ design_of taps cutoff beta out.old }
{
    lowpass::design_lowpass(taps, cutoff, beta, &mut out[..])
}

#[unsafe(no_mangle)]
pub extern "C" fn fugnadri_filter_history(taps: usize, factor: usize) -> usize
    ensures { result ≡ history_for taps factor }
{
    filter_settings::history_length(taps, factor)
}

#[unsafe(no_mangle)]
pub extern "C" fn fugnadri_filter_latency(taps: usize, factor: usize) -> f64
    ensures { result ≡ latency_for taps factor }
{
    filter_settings::latency_samples(taps, factor)
}

#[unsafe(no_mangle)]
pub extern "C" fn fugnadri_cascaded_latency() -> f64
    ensures { result ≡ cascade_latency }
{
    filter_settings::cascade_latency()
}

#[unsafe(no_mangle)]
pub extern "C" fn fugnadri_filter_keep(coefficients: &mut [f64])
    ensures { coefficients.new ≡ kept_in coefficients.old }
{
    fir_filter::keep(&mut coefficients[..]);
}

#[unsafe(no_mangle)]
pub extern "C" fn fugnadri_filter_push(history: &mut [f64], pushes: u64, input: f64)
    ensures { history.new ≡ pushed history.old pushes input }
{
    fir_filter::push(&mut history[..], pushes, input);
}

#[unsafe(no_mangle)]
pub extern "C" fn fugnadri_filter_output<'a>(
    coefficients: &'a [f64],
    history: &'a [f64],
    pushes: u64,
    factor: usize,
    phase: usize,
) -> f64
    ensures { result ≡ output_of coefficients.now history.now pushes factor phase }
{
    bit_patterns::one_nan(fir_filter::output(coefficients, history, pushes, factor, phase))
}

// A phase and the next one, written through two pointers.
#[unsafe(no_mangle)]
pub extern "C" fn fugnadri_filter_outputs<'a>(
    coefficients: &'a [f64],
    history: &'a [f64],
    pushes: u64,
    factor: usize,
    phase: usize,
    first: &mut f64,
    second: &mut f64,
)
    ensures { two_of first.new second.new
        ≡ two_of (output_of coefficients.now history.now pushes factor phase)
        (output_of coefficients.now history.now pushes factor (phase + 1)) }
{
    let both = fir_filter::outputs(coefficients, history, pushes, factor, phase);
    *first = bit_patterns::one_nan(both.first);
    *second = bit_patterns::one_nan(both.second);
}
