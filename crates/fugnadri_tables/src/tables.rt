// T1, N1, N2. Builds a table into a lent slice and returns the refusal number, 0 for none.
ghost use Rattle.std.specs.Prelude.{◌≡◌};
ghost use Rattle.windowed_sinc.specs.Table.{number_of};
ghost use Rattle.windowed_sinc_f32.specs.Table as single;
ghost use Rattle.fugnadri_tables.specs.Building.{makes, made_by, made_f32_by, new_of, for_rate_of};
ghost use Rattle.fugnadri_tables.specs.Exports.{settings_of};

use sinc_settings::Settings;

pub(crate) fn number(b: windowed_sinc::Built) -> u8
    ensures { result ≡ number_of b }
{
    match b {
        windowed_sinc::Built::Kernel(_) => 0,
        windowed_sinc::Built::Refused(k) => k,
    }
}

pub(crate) fn number_f32(b: windowed_sinc_f32::Built) -> u8
    ensures { result ≡ single.number_of b }
{
    match b {
        windowed_sinc_f32::Built::Kernel(_) => 0,
        windowed_sinc_f32::Built::Refused(k) => k,
    }
}

#[unsafe(no_mangle)]
pub extern "C" fn fugnadri_windowed_sinc_new(
    taps: usize,
    phases: usize,
    cutoff: f64,
    beta: f64,
    table: &mut [f64],
) -> u8
    ensures { makes result table.new
        ≡ new_of made_by (settings_of taps phases cutoff beta) table.old }
{
    let settings = Settings {
        taps: taps,
        phases: phases,
        cutoff: cutoff,
        beta: beta,
    };
    number(windowed_sinc::new(settings, &mut table[..]))
}

#[unsafe(no_mangle)]
pub extern "C" fn fugnadri_windowed_sinc_for_max_rate(
    taps: usize,
    phases: usize,
    max_rate: f64,
    passband: f64,
    beta: f64,
    table: &mut [f64],
) -> u8
    ensures { makes result table.new
        ≡ for_rate_of made_by taps phases max_rate passband beta table.old }
{
    number(windowed_sinc::for_max_rate(taps, phases, max_rate, passband, beta, &mut table[..]))
}

#[unsafe(no_mangle)]
pub extern "C" fn fugnadri_windowed_sinc_f32_new(
    taps: usize,
    phases: usize,
    cutoff: f64,
    beta: f64,
    table: &mut [f32],
) -> u8
    ensures { makes result table.new
        ≡ new_of made_f32_by (settings_of taps phases cutoff beta) table.old }
{
    let settings = Settings {
        taps: taps,
        phases: phases,
        cutoff: cutoff,
        beta: beta,
    };
    number_f32(windowed_sinc_f32::new(settings, &mut table[..]))
}

#[unsafe(no_mangle)]
pub extern "C" fn fugnadri_windowed_sinc_f32_for_max_rate(
    taps: usize,
    phases: usize,
    max_rate: f64,
    passband: f64,
    beta: f64,
    table: &mut [f32],
) -> u8
    ensures { makes result table.new
        ≡ for_rate_of made_f32_by taps phases max_rate passband beta table.old }
{
    number_f32(windowed_sinc_f32::for_max_rate(
        taps,
        phases,
        max_rate,
        passband,
        beta,
        &mut table[..],
    ))
}
