// The original's WindowedSinc (000) built into a lent table: `new` and `for_max_rate`.
// Such a table is read by `sinc_read`.
#![tactic(auto)]

ghost use Rattle.std.specs.Prelude.{◌≡◌, length};
ghost use Rattle.sinc_settings.specs.Refusals.{verdict, for_rate, rate_verdict};
ghost use Rattle.sinc_row.specs.Row.{at};
ghost use Rattle.windowed_sinc.specs.Table.{table_under, table_in, table_of, built_in, built_by, table_after};

use bessel::Mode;
use sinc_settings::Settings;

#[derive(Drop)]
pub struct WindowedSinc {
    pub taps: usize,
    pub phases: usize,
    pub cutoff: f64,
    pub mode: Mode,
}

#[derive(Drop)]
pub enum Built {
    Kernel(WindowedSinc),
    Refused(u8),
}

// T1. Lends the part of each phase to `write_row`, with the same window.
fn write_rows<'a>(table: &mut [f64], settings: Settings, window: &'a [f64])
    requires { (verdict settings (length table.old) ≡ 0) × (length window.now ≡ settings.taps) }
    ensures { table.new ≡ table_under (at window.now) settings }
{
    let taps = settings.taps;
    let phases = settings.phases;
    for phase in 0..=phases {
        let start = phase * taps;
        let end = start + taps;
        sinc_row::write_row(&mut table[start..end], settings, window, phase);
    }
}

// The window does not depend on the phase, so it is computed once for all rows.
fn write_table(table: &mut [f64], settings: Settings, mode: Mode)
    requires { verdict settings (length table.old) ≡ 0 }
    ensures { table.new ≡ table_in mode settings }
{
    let mut window: [f64; 128] = [0.0; 128];
    let taps = settings.taps;
    sinc_row::write_window_in(&mut window[0..taps], settings, mode);
    write_rows(&mut table[..], settings, &window[0..taps]);
}

// What both builders do when the refusal is known.
fn build(no: u8, settings: Settings, mode: Mode, table: &mut [f64]) -> Built
    requires { no ≡ 0 → verdict settings (length table.old) ≡ 0 }
    ensures value { result ≡ built_in mode no settings }
    ensures table_after { table.new ≡ table_after no (table_in mode settings) table.old }
{
    if no != 0 {
        return Built::Refused(no);
    }
    write_table(&mut table[..], settings, mode);
    Built::Kernel(WindowedSinc {
        taps: settings.taps,
        phases: settings.phases,
        cutoff: settings.cutoff,
        mode: mode,
    })
}

// 000's WindowedSinc::new: refuses by 1 or 2, or writes the table.
pub fn new(settings: Settings, table: &mut [f64]) -> Built
    ensures value { result ≡ built_by (verdict settings (length table.old)) settings }
    ensures table_after { table.new
        ≡ table_after (verdict settings (length table.old)) (table_of settings) table.old }
{
    new_in(settings, Mode::Ported, &mut table[..])
}

// W5. `new` with the window in a mode, which the kernel then names.
pub fn new_in(settings: Settings, mode: Mode, table: &mut [f64]) -> Built
    ensures value { result ≡ built_in mode (verdict settings (length table.old)) settings }
    ensures table_after { table.new
        ≡ table_after (verdict settings (length table.old)) (table_in mode settings) table.old }
{
    let no = sinc_settings::refusal(settings, table.len());
    build(no, settings, mode, &mut table[..])
}

// 000's WindowedSinc::for_max_rate. The cutoff is passband / max_rate, and each of the two has a range of its own.
pub fn for_max_rate(
    taps: usize,
    phases: usize,
    max_rate: f64,
    passband: f64,
    beta: f64,
    table: &mut [f64],
) -> Built
    ensures value { result
        ≡ built_by
        (rate_verdict (for_rate taps phases max_rate passband beta) max_rate passband (length table.old))
        (for_rate taps phases max_rate passband beta) }
    ensures table_after { table.new
        ≡ table_after
        (rate_verdict (for_rate taps phases max_rate passband beta) max_rate passband (length table.old))
        (table_of (for_rate taps phases max_rate passband beta)) table.old }
{
    for_max_rate_in(
        taps,
        phases,
        max_rate,
        passband,
        beta,
        Mode::Ported,
        &mut table[..],
    )
}

// W5. `for_max_rate` with the window in a mode, which the kernel then names.
pub fn for_max_rate_in(
    taps: usize,
    phases: usize,
    max_rate: f64,
    passband: f64,
    beta: f64,
    mode: Mode,
    table: &mut [f64],
) -> Built
    ensures value { result
        ≡ built_in mode
        (rate_verdict (for_rate taps phases max_rate passband beta) max_rate passband (length table.old))
        (for_rate taps phases max_rate passband beta) }
    ensures table_after { table.new
        ≡ table_after
        (rate_verdict (for_rate taps phases max_rate passband beta) max_rate passband (length table.old))
        (table_in mode (for_rate taps phases max_rate passband beta)) table.old }
{
    let settings = sinc_settings::for_rate(taps, phases, max_rate, passband, beta);
    let no = sinc_settings::rate_refusal(settings, max_rate, passband, table.len());
    build(no, settings, mode, &mut table[..])
}
