// One row of a windowed sinc table: the coefficients of one phase (000, T1).
// The window depends on the tap alone, so it is computed once and lent to every row.
#![tactic(auto)]

mod window; // the window at each tap

ghost use Rattle.std.specs.Prelude.{◌≡◌, true, map, ◌≤◌, length, Float};
ghost use Rattle.std.specs.Float.{binary64};
ghost use Rattle.std.specs.Float.Ieee.{mul, div};
ghost use Rattle.loop_laws.specs.Loops.{list_of};
ghost use Rattle.magnitude.specs.Bounds.{AtMost};
ghost use Rattle.sinc_settings.specs.Ranges.{settings_ok};
ghost use Rattle.sinc_row.specs.Coefficient.{small_of, sinc_of, coefficient_of, coefficient_at};
ghost use Rattle.sinc_row.specs.Row.{at, raw_of, gain_of, row_ready, row_after};

use sinc_settings::Settings;
use window::window_ready;
pub use window::{write_window, write_window_in};

// Whether |x| is below 1.0e-12.
fn small(x: f64) -> bool
    ensures { result ≡ small_of x }
{
    if x < 1.0e-12 { x > -1.0e-12 } else { false }
}

// 000's sinc. For an x of at most 65 the sine's argument is in range, so that it is not refused.
fn sinc(x: f64) -> f64
    requires { AtMost 65 x }
    ensures { result ≡ sinc_of x }
{
    if small(x) {
        return 1.0;
    }
    let y = 3.141592653589793 * x;
    match elementary::sine(y) {
        Ok(v) => v / y,
        Err(_) => 0.0,
    }
}

// A coefficient before it is divided by the sum of its row.
fn coefficient(cutoff: f64, distance: f64, window: f64) -> f64
    requires { AtMost 65 (mul binary64 cutoff distance) }
    ensures { result ≡ coefficient_of cutoff distance window }
{
    cutoff * sinc(cutoff * distance) * window
}

// W11a. `coefficient` for any arguments: 0.0 if the argument of the sinc lies beyond 65.
pub fn coefficient_at(cutoff: f64, distance: f64, window: f64) -> f64
    ensures { result ≡ coefficient_at cutoff distance window }
{
    if !magnitude::within(cutoff * distance, -65.0, 65.0) {
        return 0.0;
    }
    coefficient(cutoff, distance, window)
}

// Writes a row's coefficients and returns their sum.
fn fill<'a>(row: &mut [f64], settings: Settings, window: &'a [f64], phase: usize) -> f64
    requires { (settings_ok settings ≡ true) × (phase ≤ settings.phases) × (length row.old ≡ settings.taps)
        × (length window.now ≡ settings.taps) }
    ensures value { result ≡ gain_of settings (at window.now) phase settings.taps }
    ensures row_after { row.new ≡ list_of (raw_of settings (at window.now) phase) settings.taps }
{
    let center = (settings.taps as f64) / 2.0 - 1.0;
    let frac = (phase as f64) / (settings.phases as f64);
    let mut gain = 0.0;
    for (k, at) in row.iter_mut().enumerate() {
        let c = coefficient(settings.cutoff, (k as f64) - center - frac, window[k]);
        *at = c;
        gain = gain + c;
    }
    gain
}

// Whether no quotient by the sum can be a NaN. The sum is a number other than zero; then every coefficient is a number
// too.
fn plain(gain: f64) -> bool {
    if magnitude::is_finite(gain) {
        gain != 0.0
    } else {
        false
    }
}

// O3. A table leaves the port as floats, so a NaN in it must have the one pattern that is handed out.
fn quotient(x: f64, gain: f64, plain: bool) -> f64
    ensures { result ≡ div binary64 x gain }
{
    let y = x / gain;
    if plain { y } else { bit_patterns::one_nan(y) }
}

// Divides each element.
pub fn divide(row: &mut [f64], gain: f64)
    ensures { row.new ≡ map (λ (x : Float). div binary64 x gain) row.old }
{
    let plain = plain(gain);
    for x in row.iter_mut() {
        *x = quotient(*x, gain, plain);
    }
}

fn row_ready(settings: Settings, phase: usize, len: usize, lent: usize) -> bool
    ensures { result ≡ row_ready settings phase len lent }
{
    if window_ready(settings, len) {
        if phase <= settings.phases {
            lent == settings.taps
        } else {
            false
        }
    } else {
        false
    }
}

// T1. Writes the row of a phase under a lent window, divided by its sum. If a setting, the phase or a length is out of
// range, nothing is written.
pub fn write_row<'a>(row: &mut [f64], settings: Settings, window: &'a [f64], phase: usize)
    ensures { row.new ≡ row_after settings window.now phase row.old }
{
    if !row_ready(settings, phase, row.len(), window.len()) {
        return;
    }
    let gain = fill(&mut row[..], settings, window, phase);
    divide(&mut row[..], gain);
}
