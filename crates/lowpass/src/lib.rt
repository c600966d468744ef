// 000's design_lowpass: the coefficients of a Kaiser-windowed low-pass filter, written into a lent slice (W11a, W11b).
#![tactic(auto)]

ghost use Rattle.std.specs.Prelude.{◌≡◌, true, length};
ghost use Rattle.loop_laws.specs.Loops.{list_of};
ghost use Rattle.filter_settings.specs.Ranges.{design_ok, design_verdict};
ghost use Rattle.lowpass.specs.Design.{kaiser_of, raw_of, gain_of, designed};

// The window at a tap. `denom` is I0 of beta, which is the same for all taps.
fn kaiser(distance: f64, center: f64, beta: f64, denom: f64) -> f64
    ensures { result ≡ kaiser_of distance center beta denom }
{
    let normalized = distance / center;
    let root = square_root::square_root(min_max::max(1.0 - normalized * normalized, 0.0));
    bessel::bessel_i0(beta * root) / denom
}

// Writes the coefficients before they are divided, and returns their sum. Rust starts a sum of floats at -0.0.
fn fill(out: &mut [f64], taps: usize, cutoff: f64, beta: f64) -> f64
    requires { (design_ok taps cutoff beta ≡ true) × (length out.old ≡ taps) }
    ensures value { result ≡ gain_of taps cutoff beta taps }
    ensures out_after { out.new ≡ list_of (raw_of taps cutoff beta) taps }
{
    let center = ((taps - 1) as f64) / 2.0;
    let denom = bessel::bessel_i0(beta);
    let mut gain = -0.0;
    for (k, at) in out.iter_mut().enumerate() {
        let distance = (k as f64) - center;
        let c = sinc_row::coefficient_at(cutoff, distance, kaiser(distance, center, beta, denom));
        *at = c;
        gain = gain + c;
    }
    gain
}

// W11a. 000's design_lowpass: refuses by 1 or 2, or writes the coefficients, divided by their sum. Returns the refusal,
// 0 for none.
pub fn design_lowpass(taps: usize, cutoff: f64, beta: f64, out: &mut [f64]) -> u8
    ensures value { result ≡ design_verdict taps cutoff beta (length out.old) }
    ensures out_after { out.new ≡ designed taps cutoff beta out.old }
{
    let no = filter_settings::design_refusal(taps, cutoff, beta, out.len());
    if no != 0 {
        return no;
    }
    let gain = fill(&mut out[..], taps, cutoff, beta);
    sinc_row::divide(&mut out[..], gain);
    0
}
