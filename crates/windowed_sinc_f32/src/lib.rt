// The original's WindowedSincF32 (000) built into a lent table: `new` and `for_max_rate`.
// No f64 table is made: each row is computed in a buffer of f64 and rounded into its place.
#![tactic(auto)]

ghost use Rattle.std.specs.Prelude.{◌≡◌, true, map, ◌≤◌, length};
ghost use Rattle.rounding.specs.Operations.{narrowed};
ghost use Rattle.sinc_settings.specs.Ranges.{settings_ok};
ghost use Rattle.sinc_settings.specs.Refusals.{verdict, for_rate, rate_verdict};
ghost use Rattle.sinc_row.specs.Row.{at, row_of};
ghost use Rattle.windowed_sinc.specs.Table.{table_under, table_after};
ghost use Rattle.windowed_sinc_f32.specs.Table.{table_f32_in, table_f32_of, built_in, built_by};

use bessel::Mode;
use sinc_settings::Settings;

#[derive(Drop)]
pub struct WindowedSincF32 {
    pub taps: usize,
    pub phases: usize,
    pub mode: Mode,
}

#[derive(Drop)]
pub enum Built {
    Kernel(WindowedSincF32),
    Refused(u8),
}

// 000's `value as f32`, for each element.
fn narrow_row<'a>(row: &mut [f32], from: &'a [f64])
    requires { length row.old ≡ length from.now }
    ensures { row.new ≡ map narrowed from.now }
{
    for (k, at) in row.iter_mut().enumerate() {
        *at = narrowing::narrow(from[k]);
    }
}

// Computes the row of a phase in f64, then rounds each coefficient once.
fn write_row<'a>(row: &mut [f32], settings: Settings, window: &'a [f64], phase: usize)
    requires { (settings_ok settings ≡ true) × (length window.now ≡ settings.taps) × (phase ≤ settings.phases)
        × (length row.old ≡ settings.taps) }
    ensures { row.new ≡ map narrowed (row_of settings (at window.now) phase) }
{
    let mut scratch: [f64; 128] = [0.0; 128];
    let taps = settings.taps;
    sinc_row::write_row(&mut scratch[0..taps], settings, window, phase);
    narrow_row(&mut row[..], &scratch[0..taps]);
}

// T1. Lends the part of each phase to `write_row`, with the same window.
fn write_rows<'a>(table: &mut [f32], settings: Settings, window: &'a [f64])
    requires { (verdict settings (length table.old) ≡ 0) × (length window.now ≡ settings.taps) }
    ensures { table.new ≡ map narrowed (table_under (at window.now) settings) }
{
    let taps = settings.taps;
    let phases = settings.phases;
    for phase in 0..=phases {
        let start = phase * taps;
        let end = start + taps;
        write_row(&mut table[start..end], settings, window, phase);
    }
}

fn write_table(table: &mut [f32], settings: Settings, mode: Mode)
    requires { verdict settings (length table.old) ≡ 0 }
    ensures { table.new ≡ table_f32_in mode settings }
{
    let mut window: [f64; 128] = [0.0; 128];
    let taps = settings.taps;
    sinc_row::write_window_in(&mut window[0..taps], settings, mode);
    write_rows(&mut table[..], settings, &window[0..taps]);
}

// What both builders do when the refusal is known.
fn build(no: u8, settings: Settings, mode: Mode, table: &mut [f32]) -> Built
    requires { no ≡ 0 → verdict settings (length table.old) ≡ 0 }
    ensures value { result ≡ built_in mode no settings }
    ensures table_after { table.new ≡ table_after no (table_f32_in mode settings) table.old }
{
    if no != 0 {
        return Built::Refused(no);
    }
    write_table(&mut table[..], settings, mode);
    Built::Kernel(WindowedSincF32 {
        taps: settings.taps,
        phases: settings.phases,
        mode: mode,
    })
}

// 000's WindowedSincF32::new: refuses by 1 or 2, or writes the table.
pub fn new(settings: Settings, table: &mut [f32]) -> Built
    ensures value { result ≡ built_by (verdict settings (length table.old)) settings }
    ensures table_after { table.new
        ≡ table_after (verdict settings (length table.old)) (table_f32_of settings) table.old }
{
    new_in(settings, Mode::Ported, &mut table[..])
}

// W5. `new` with the window in a mode, which the kernel then names.
pub fn new_in(settings: Settings, mode: Mode, table: &mut [f32]) -> Built
    ensures value { result ≡ built_in mode (verdict settings (length table.old)) settings }
    ensures table_after { table.new
        ≡ table_after (verdict settings (length table.old)) (table_f32_in mode settings) table.old }
{
    let no = sinc_settings::refusal(settings, table.len());
    build(no, settings, mode, &mut table[..])
}

// 000's WindowedSincF32::for_max_rate. The cutoff is passband / max_rate, and each of the two has a range of its own.
pub fn for_max_rate(
    taps: usize,
    phases: usize,
    max_rate: f64,
    passband: f64,
    beta: f64,
    table: &mut [f32],
) -> Built
    ensures value { result
        ≡ built_by
        (rate_verdict (for_rate taps phases max_rate passband beta) max_rate passband (length table.old))
        (for_rate taps phases max_rate passband beta) }
    ensures table_after { table.new
        ≡ table_after
        (rate_verdict (for_rate taps phases max_rate passband beta) max_rate passband (length table.old))
        (table_f32_of (for_rate taps phases max_rate passband beta)) table.old }
{
    for_max_rate_in(
        taps,
        phases,
        max_rate,
        passband,
        beta,
        Mode::Ported,
        &mut table[..],
    )
}

// W5. `for_max_rate` with the window in a mode, which the kernel then names.
pub fn for_max_rate_in(
    taps: usize,
    phases: usize,
    max_rate: f64,
    passband: f64,
    beta: f64,
    mode: Mode,
    table: &mut [f32],
) -> Built
    ensures value { result
        ≡ built_in mode
        (rate_verdict (for_rate taps phases max_rate passband beta) max_rate passband (length table.old))
        (for_rate taps phases max_rate passband beta) }
    ensures table_after { table.new
        ≡ table_after
        (rate_verdict (for_rate taps phases max_rate passband beta) max_rate passband (length table.old))
        (table_f32_in mode (for_rate taps phases max_rate passband beta)) table.old }
{
    let settings = sinc_settings::for_rate(taps, phases, max_rate, passband, beta);
    let no = sinc_settings::rate_refusal(settings, max_rate, passband, table.len());
    build(no, settings, mode, &mut table[..])
}
