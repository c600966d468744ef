// The program that prints document 01's worked numbers that are not marked P, as the compiled functions give them (C3).
// A line is a name and a value; a float is written by its 16 hex digits.
#![tactic(auto)]

use answer::Answer;
use bit_patterns::bits_of;
use streams::{print_decimal, write_all};
use variable_delay::VariableDelay;

fn number(rt: &HostRuntime, name: &[u8], n: u64) {
    write_all(rt, name);
    print_decimal(rt, n);
    write_all(rt, b"\n");
}

fn word(rt: &HostRuntime, name: &[u8], n: u64) {
    let digits = word_bytes::hex16(n);
    write_all(rt, name);
    write_all(rt, &digits);
    write_all(rt, b"\n");
}

// A reader over a ring of 8 that has accepted some samples.
fn reader(accepted: u64) -> VariableDelay {
    VariableDelay {
        maximum: 0,
        margin: 0,
        accepted: accepted,
    }
}

// G1. For settings out of range 0 is printed.
fn ring_lengths(rt: &HostRuntime) {
    number(rt, b"ring for 0 and 0: ", ring::length_for(0, 0) as u64);
    number(
        rt,
        b"ring for 1016 and 0: ",
        ring::length_for(1016, 0) as u64,
    );
    number(
        rt,
        b"ring for 1017 and 0: ",
        ring::length_for(1017, 0) as u64,
    );
    number(
        rt,
        b"ring for 16777208 and 0: ",
        ring::length_for(16777208, 0) as u64,
    );
    number(
        rt,
        b"ring for 16777209 and 0: ",
        ring::length_for(16777209, 0) as u64,
    );
}

// N5, N6, N8. The number of the refusal, 0 for none.
fn due(accepted: u64, delay: f64) -> u64 {
    let no_settings = true;
    let no_table = true;
    variable_delay::refusal(reader(accepted), no_settings, no_table, 8, 1.0, delay) as u64
}

fn refusals(rt: &HostRuntime) {
    number(rt, b"refusal at delay -0.0: ", due(0, -0.0));
    number(rt, b"refusal at delay -1e-300: ", due(0, -1e-300));
    number(rt, b"refusal at delay 2^36: ", due(0, 68719476736.0));
    number(
        rt,
        b"refusal at delay 2^36 + 2^-16: ",
        due(0, 68719476736.0000152587890625),
    );
    number(
        rt,
        b"refusal after 2^36 - 1 samples: ",
        due(68719476735, 1.5),
    );
    number(rt, b"refusal after 2^36 samples: ", due(68719476736, 1.5));
    number(
        rt,
        b"refusal after 2^36 + 1 samples: ",
        due(68719476737, 1.5),
    );
}

// K3. What the cubic reader answers to its first sample. If it were refused, the number would be printed.
fn first(input: f64, delay: f64) -> u64 {
    let mut ring = [0.0f64; 8];
    let answer = cubic_delay::process_sample(reader(0), &mut ring, input, delay).answer;
    match answer {
        Answer::Sample(y) => bits_of(y),
        Answer::Refused(no) => no as u64,
    }
}

// E4. If it were refused, the number would be printed.
fn power(x: f64) -> u64 {
    match elementary::exp2(x) {
        Ok(y) => bits_of(y),
        Err(refusal) => refusal.number() as u64,
    }
}

fn main(rt: HostRuntime) {
    ring_lengths(&rt);
    refusals(&rt);
    word(
        &rt,
        b"fraction of 0 - 1e-300: ",
        bits_of(integer_part::fraction(0.0 - 1e-300)),
    );
    word(&rt, b"1 at delay 1e-300: ", first(1.0, 1e-300));
    word(&rt, b"2^0: ", power(0.0));
    word(&rt, b"2^1: ", power(1.0));
    word(&rt, b"2^-1: ", power(-1.0));
    word(&rt, b"seed 0: ", xorshift::normalized_seed(0));
}
