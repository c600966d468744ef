// The settings of the oversampled readers' filters: their ranges, what `design_lowpass` refuses, how many samples a
// filter holds and by how many it delays (W11b, W11j).
#![tactic(auto)]

ghost use Rattle.std.specs.Prelude.{◌≡◌, ◌&&◌};
ghost use Rattle.std.specs.Float.Ieee as Ieee;
ghost use Rattle.filter_settings.specs.Ranges.{taps_ok, factor_ok, design_ok, design_verdict};
ghost use Rattle.filter_settings.specs.Lengths.{history_for, latency_for, cascade_latency};

use refusal_order::both;

// W11b. The taps are odd and from 17 to 129.
pub fn taps_ok(taps: usize) -> bool
    ensures { result ≡ taps_ok taps }
{
    both(both(17 <= taps, taps <= 129), taps % 2 == 1)
}

// W11b. The factor is 2 or 4.
pub fn factor_ok(factor: usize) -> bool
    ensures { result ≡ factor_ok factor }
{
    if factor == 2 { true } else { factor == 4 }
}

// From low, which is included, to below high.
fn below(x: f64, low: f64, high: f64) -> bool
    ensures { result ≡ (Ieee.le low x && Ieee.lt x high) }
{
    if low <= x { x < high } else { false }
}

// W11b. The taps, the cutoff and beta of 000's design_lowpass are in range.
pub fn design_ok(taps: usize, cutoff: f64, beta: f64) -> bool
    ensures { result ≡ design_ok taps cutoff beta }
{
    both(
        taps_ok(taps),
        both(
            below(cutoff, 0.0009765625, 1.0),
            magnitude::within(beta, 0.0, 20.0),
        ),
    )
}

// The refusal when a slice of this length is lent to `design_lowpass`, 0 for none.
pub fn design_refusal(taps: usize, cutoff: f64, beta: f64, len: usize) -> u8
    ensures { result ≡ design_verdict taps cutoff beta len }
{
    if design_ok(taps, cutoff, beta) {
        if len == taps { 0 } else { 2 }
    } else {
        1
    }
}

// How many samples a filter holds, 0 if the taps or the factor is out of range. The decimating filter's factor is 1.
pub fn history_length(taps: usize, factor: usize) -> usize
    ensures { result ≡ history_for taps factor }
{
    if !taps_ok(taps) {
        return 0;
    }
    if factor == 1 {
        return taps;
    }
    if factor == 2 {
        return (taps + 1) / 2;
    }
    if factor == 4 {
        return (taps + 3) / 4;
    }
    0
}

// W11j. 000's latency_samples of the reader with these taps and this factor, 0.0 if one of them is out of range.
pub fn latency_samples(taps: usize, factor: usize) -> f64
    ensures { result ≡ latency_for taps factor }
{
    if !both(taps_ok(taps), factor_ok(factor)) {
        return 0.0;
    }
    ((taps - 1) as f64) / (factor as f64)
}

// W11j. 000's latency_samples of the cascade: 16 for the first upsampler, 8 for the second, 8 and 32 for the decimating
// filters.
pub fn cascade_latency() -> f64
    ensures { result ≡ cascade_latency }
{
    64.0
}
