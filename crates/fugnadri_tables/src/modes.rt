// W5. A table built in a mode of the sum that stands for I0: 0 is the ported one and 1 the full one; any other number
// is refused by 1.
ghost use Rattle.std.specs.Prelude.{◌≡◌};
ghost use Rattle.fugnadri_tables.specs.Building.{makes, made_in, made_f32_in, coded, new_of, for_rate_of};
ghost use Rattle.fugnadri_tables.specs.Exports.{settings_of};

use crate::tables::{number, number_f32};
use bessel::{known, of_code};
use sinc_settings::Settings;

#[unsafe(no_mangle)]
pub extern "C" fn fugnadri_windowed_sinc_new_in(
    taps: usize,
    phases: usize,
    cutoff: f64,
    beta: f64,
    mode: u8,
    table: &mut [f64],
) -> u8
    ensures { makes result table.new
        ≡ new_of (coded made_in mode) (settings_of taps phases cutoff beta) table.old }
{
    let settings = Settings {
        taps: taps,
        phases: phases,
        cutoff: cutoff,
        beta: beta,
    };
    if known(mode) {
        return number(windowed_sinc::new_in(settings, of_code(mode), &mut table[..]));
    }
    1
}

#[unsafe(no_mangle)]
pub extern "C" fn fugnadri_windowed_sinc_for_max_rate_in(
    taps: usize,
    phases: usize,
    max_rate: f64,
    passband: f64,
    beta: f64,
    mode: u8,
    table: &mut [f64],
) -> u8
    ensures { makes result table.new
        ≡ for_rate_of (coded made_in mode) taps phases max_rate passband beta table.old }
{
    if known(mode) {
        return number(windowed_sinc::for_max_rate_in(
            taps,
            phases,
            max_rate,
            passband,
            beta,
            of_code(mode),
            &mut table[..],
        ));
    }
    1
}

#[unsafe(no_mangle)]
pub extern "C" fn fugnadri_windowed_sinc_f32_new_in(
    taps: usize,
    phases: usize,
    cutoff: f64,
    beta: f64,
    mode: u8,
    table: &mut [f32],
) -> u8
    ensures { makes result table.new
        ≡ new_of (coded made_f32_in mode) (settings_of taps phases cutoff beta) table.old }
{
    let settings = Settings {
        taps: taps,
        phases: phases,
        cutoff: cutoff,
        beta: beta,
    };
    if known(mode) {
        return number_f32(windowed_sinc_f32::new_in(settings, of_code(mode), &mut table[..]));
    }
    1
}

#[unsafe(no_mangle)]
pub extern "C" fn fugnadri_windowed_sinc_f32_for_max_rate_in(
    taps: usize,
    phases: usize,
    max_rate: f64,
    passband: f64,
    beta: f64,
    mode: u8,
    table: &mut [f32],
) -> u8
    ensures { makes result table.new
        ≡ for_rate_of (coded made_f32_in mode) taps phases max_rate passband beta table.old }
{
    if known(mode) {
        return number_f32(windowed_sinc_f32::for_max_rate_in(
            taps,
            phases,
            max_rate,
            passband,
            beta,
            of_code(mode),
            &mut table[..],
        ));
    }
    1
}
