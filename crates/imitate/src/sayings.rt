// The lines about settings, delays and samples that cannot be used, and about samples that read absent taps.
use crate::absences::Absences;
use delay_words::{put_delays, whole_above};
use error_lines::{say, say_plain};
use file_words::{say_place, say_unread};
use modulation_params::ModulationParams;
use outcomes::Outcome;
use sizes::begun;
use system::System;

// Whether the settings are in range and the delay leaves room for the wandering. If not, a line says what would be
// accepted.
pub(crate) fn suits(system: &System, params: ModulationParams, delay: f64, rate: u32) -> bool {
    if !params.in_range() {
        say_settings(system, params);
        return false;
    }
    let reach = delay_range::reach(params, rate as f64);
    if delay_range::suits(delay, reach) {
        return true;
    }
    say_delays(system, reach);
    false
}

fn say_settings(system: &System, params: ModulationParams) {
    if !oscillator_ranges::rate_ok(params.wow_rate_hz) {
        say_plain(system, b"imitate", b"wow_rate_hz is from -1000 to 1000\n");
        return;
    }
    if !oscillator_ranges::depth_ok(params.wow_depth_cents) {
        say_plain(
            system,
            b"imitate",
            b"wow_depth_cents is from -1200 to 1200\n",
        );
        return;
    }
    if !oscillator_ranges::rate_ok(params.flutter_rate_hz) {
        say_plain(
            system,
            b"imitate",
            b"flutter_rate_hz is from -1000 to 1000\n",
        );
        return;
    }
    if !oscillator_ranges::depth_ok(params.flutter_depth_cents) {
        say_plain(
            system,
            b"imitate",
            b"flutter_depth_cents is from -1200 to 1200\n",
        );
        return;
    }
    say_plain(
        system,
        b"imitate",
        b"shapes and amounts are finite numbers\n",
    );
}

// Says which whole delays would be accepted. The reach counts as the next whole number above it.
fn say_delays(system: &System, reach: f64) {
    let mut line = [0u8; 128];
    let n = put_delays(&mut line, 0, whole_above(reach));
    say_plain(system, b"imitate", begun(&line, n));
}

// Two lines have at most 440 bytes (`short-lines` in absent_words).
pub(crate) fn say_absent(system: &System, channels: u8, absent: Absences) {
    let mut lines = [0u8; 512];
    let one = absent.one;
    let two = absent.two;
    let n = absent_words::put_lines(&mut lines, 0, channels, one, two);
    say(system, begun(&lines, n));
}

pub(crate) fn say_outcome(system: &System, from: &[u8], to: &[u8], outcome: Outcome) {
    if outcome.io == 3 {
        part_file::say_unwritten(system, b"imitate", to);
        return;
    }
    if outcome.io != 0 {
        say_unread(system, b"imitate", from, outcome.io);
        return;
    }
    if outcome.number == 15 {
        say_sample(
            system,
            from,
            outcome,
            b" becomes too large for the kind: try kind=float32\n",
        );
        return;
    }
    say_sample(
        system,
        from,
        outcome,
        b" is not a number, infinite, or too large to be worked with: mend it in an audio editor first\n",
    );
}

fn say_sample(system: &System, from: &[u8], outcome: Outcome, words: &[u8]) {
    say_place(
        system,
        b"imitate",
        from,
        outcome.number,
        outcome.frame,
        outcome.channel,
        words,
    );
}
