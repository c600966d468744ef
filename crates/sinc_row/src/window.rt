// Kaiser's window, tap by tap. It does not depend on the phase.
ghost use Rattle.std.specs.Prelude.{◌≡◌, true, ◌<◌, length};
ghost use Rattle.loop_laws.specs.Loops.{list_of};
ghost use Rattle.bessel.specs.Modes.{sum_in};
ghost use Rattle.sinc_settings.specs.Ranges.{settings_ok};
ghost use Rattle.sinc_row.specs.Coefficient.{window_in};
ghost use Rattle.sinc_row.specs.Row.{window_ready, window_after, window_after_in};

use bessel::Mode;
use sinc_settings::Settings;

// The window at a tap. `denom` is I0 of beta, which is the same for all taps.
fn kaiser(settings: Settings, mode: Mode, denom: f64, k: usize) -> f64
    requires { (settings_ok settings ≡ true) × (k < settings.taps) × (denom ≡ sum_in mode settings.beta) }
    ensures { result ≡ window_in mode settings k }
{
    let normalized = 2.0 * (k as f64) / ((settings.taps - 1) as f64) - 1.0;
    let root = square_root::square_root(min_max::max(1.0 - normalized * normalized, 0.0));
    bessel::sum(mode, settings.beta * root) / denom
}

fn fill_window(window: &mut [f64], settings: Settings, mode: Mode)
    requires { (settings_ok settings ≡ true) × (length window.old ≡ settings.taps) }
    ensures { window.new ≡ list_of (window_in mode settings) settings.taps }
{
    let denom = bessel::sum(mode, settings.beta);
    for (k, at) in window.iter_mut().enumerate() {
        *at = kaiser(settings, mode, denom, k);
    }
}

pub(crate) fn window_ready(settings: Settings, len: usize) -> bool
    ensures { result ≡ window_ready settings len }
{
    if sinc_settings::settings_ok(settings) {
        len == settings.taps
    } else {
        false
    }
}

// W5. Writes the window of each tap, in a mode. If a setting is out of range, or the length is not the number of taps,
// nothing is written.
pub fn write_window_in(window: &mut [f64], settings: Settings, mode: Mode)
    ensures { window.new ≡ window_after_in mode settings window.old }
{
    if !window_ready(settings, window.len()) {
        return;
    }
    fill_window(&mut window[..], settings, mode);
}

// 000's window, which is that of the ported mode.
pub fn write_window(window: &mut [f64], settings: Settings)
    ensures { window.new ≡ window_after settings window.old }
{
    write_window_in(&mut window[..], settings, Mode::Ported);
}
