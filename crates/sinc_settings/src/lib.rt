// The settings of a windowed sinc table: their ranges, the length of the table, and which refusal is given (G5, N1,
// N2).
#![tactic(auto)]

ghost use Rattle.std.specs.Prelude.{◌≡◌, ◌&&◌};
ghost use Rattle.sinc_settings.specs.Ranges.{taps_ok, phases_ok, settings_ok, rate_ok, passband_ok};
ghost use Rattle.sinc_settings.specs.Refusals.{table_verdict, verdict, for_rate, rate_verdict};

use refusal_order::both;

// The four arguments of 000's WindowedSinc::new.
#[derive(Clone, Copy)]
pub struct Settings {
    pub taps: usize,
    pub phases: usize,
    pub cutoff: f64,
    pub beta: f64,
}

// G5. The taps are even and from 4 to 128.
pub fn taps_ok(taps: usize) -> bool
    ensures { result ≡ taps_ok taps }
{
    both(both(4 <= taps, taps <= 128), taps % 2 == 0)
}

// G5. The phases are from 2 to 4096.
pub fn phases_ok(phases: usize) -> bool
    ensures { result ≡ phases_ok phases }
{
    both(2 <= phases, phases <= 4096)
}

// G5. The cutoff is from 1/1024 to 1 and beta from 0 to 20; taps and phases are in their ranges too.
pub fn settings_ok(settings: Settings) -> bool
    ensures { result ≡ settings_ok settings }
{
    both(
        both(taps_ok(settings.taps), phases_ok(settings.phases)),
        both(
            magnitude::within(settings.cutoff, 0.0009765625, 1.0),
            magnitude::within(settings.beta, 0.0, 20.0),
        ),
    )
}

// The refusal when a table of this length is lent to a reader, 0 for none.
pub fn table_refusal(taps: usize, phases: usize, len: usize) -> u8
    ensures { result ≡ table_verdict taps phases len }
{
    if both(taps_ok(taps), phases_ok(phases)) {
        if len == (phases + 1) * taps { 0 } else { 2 }
    } else {
        1
    }
}

// The refusal when a table of this length is lent to a builder, 0 for none.
pub fn refusal(settings: Settings, len: usize) -> u8
    ensures { result ≡ verdict settings len }
{
    if settings_ok(settings) {
        table_refusal(settings.taps, settings.phases, len)
    } else {
        1
    }
}

// G5. The rate and the passband of 000's for_max_rate are in range.
pub fn rate_ok(rate: f64, passband: f64) -> bool
    ensures { result ≡ (rate_ok rate && passband_ok passband) }
{
    both(
        magnitude::within(rate, 1.0, 2.0),
        both(0.0 < passband, passband <= 1.0),
    )
}

// The settings that 000's for_max_rate hands on to `new`.
pub fn for_rate(taps: usize, phases: usize, rate: f64, passband: f64, beta: f64) -> Settings
    ensures { result ≡ for_rate taps phases rate passband beta }
{
    Settings {
        taps: taps,
        phases: phases,
        cutoff: passband / rate,
        beta: beta,
    }
}

// The refusal when a table of this length is lent to the original's for_max_rate (000), 0 for none. The rate and the
// passband are settings too.
pub fn rate_refusal(settings: Settings, rate: f64, passband: f64, len: usize) -> u8
    ensures { result ≡ rate_verdict settings rate passband len }
{
    if rate_ok(rate, passband) {
        refusal(settings, len)
    } else {
        1
    }
}
