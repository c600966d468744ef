// The original's SincBankF32 (000) over lent slices: builds the sets of a bank, and gives the part of a set that a
// quality reads (T3, T5).
#![tactic(auto)]

mod parts; // the part of a set that a quality reads

ghost use Rattle.std.specs.Prelude.{◌≡◌, true, ◌-◌, ◌*◌, ◌≤◌, length};
ghost use Rattle.sinc_settings.specs.Refusals.{for_rate, rate_verdict};
ghost use Rattle.windowed_sinc.specs.Table.{table_after};
ghost use Rattle.windowed_sinc_f32.specs.Table.{table_f32_in};
ghost use Rattle.bank_choice.specs.Rates.{bank_ok, steps_of};
ghost use Rattle.sinc_bank_f32.specs.Sets.{set_length, passband, with_part, bank_length};
ghost use Rattle.sinc_bank_f32.specs.Sets.{set_in, set_of, bank_in, bank_of};
ghost use Rattle.sinc_bank_f32.specs.Building.{set_verdict, bank_verdict, built_by};

use bessel::Mode;
use constants::SET_LENGTH;
pub use parts::chosen;

#[derive(Drop)]
pub enum Built {
    Sets(usize),
    Refused(u8),
}

// Builds one table of a set in its part of the lent slice. Nothing is refused: a rate from 1 to 2 gives a cutoff from
// 0.4975 to 0.995.
fn write_part(
    taps: usize,
    phases: usize,
    rate: f64,
    beta: f64,
    set: &mut [f32],
    start: usize,
    end: usize,
    mode: Mode,
)
    requires { (start ≤ end) × (end ≤ length set.old)
        × (rate_verdict (for_rate taps phases rate passband beta) rate passband (end - start) ≡ 0) }
    ensures { set.new
        ≡ with_part start end (table_f32_in mode (for_rate taps phases rate passband beta)) set.old }
{
    let _built = windowed_sinc_f32::for_max_rate_in(
        taps,
        phases,
        rate,
        0.995,
        beta,
        mode,
        &mut set[start..end],
    );
}

// Builds the three tables of a set, one behind the other.
fn write_set(rate: f64, set: &mut [f32], mode: Mode)
    requires { (bank_ok rate ≡ true) × (length set.old ≡ set_length) }
    ensures { set.new ≡ set_in mode rate }
{
    write_part(80, 2048, rate, 12.0, &mut set[..], 0, 163920, mode);
    write_part(96, 4096, rate, 14.0, &mut set[..], 163920, 557232, mode);
    write_part(
        128,
        4096,
        rate,
        16.0,
        &mut set[..],
        557232,
        SET_LENGTH,
        mode,
    );
}

// N1, N2. Builds one set. It answers the number of the refusal, 0 for none; a refusal leaves the slice as it was.
pub fn build_set(rate: f64, set: &mut [f32]) -> u8
    ensures value { result ≡ set_verdict rate (length set.old) }
    ensures set_after { set.new
        ≡ table_after (set_verdict rate (length set.old)) (set_of rate) set.old }
{
    build_set_in(rate, Mode::Ported, &mut set[..])
}

// W5. `build_set` with all three windows in a mode.
pub fn build_set_in(rate: f64, mode: Mode, set: &mut [f32]) -> u8
    ensures value { result ≡ set_verdict rate (length set.old) }
    ensures set_after { set.new
        ≡ table_after (set_verdict rate (length set.old)) (set_in mode rate) set.old }
{
    if !magnitude::within(rate, 1.0, 2.0) {
        return 1;
    }
    if set.len() != SET_LENGTH {
        return 2;
    }
    write_set(rate, &mut set[..], mode);
    0
}

// How many f32 a bank needs; 0 if its rate is out of range.
pub fn bank_length(max_rate: f64) -> usize
    ensures { result ≡ bank_length max_rate }
{
    bank_choice::steps(max_rate) * SET_LENGTH
}

// Lends the part of each set to `write_set`.
fn write_sets(max_rate: f64, n: usize, width: usize, sets: &mut [f32], mode: Mode)
    requires { (bank_ok max_rate ≡ true) × (n ≡ steps_of max_rate) × (width ≡ set_length)
        × (length sets.old ≡ n * width) }
    ensures { sets.new ≡ bank_in mode max_rate }
{
    for i in 0..n {
        let rate = bank_choice::set_rate(max_rate, i);
        let start = i * width;
        let end = start + width;
        write_set(rate, &mut sets[start..end], mode);
    }
}

// 000's SincBankF32::for_max_rate: refuses by 1 or 2, or builds every set.
pub fn build(max_rate: f64, sets: &mut [f32]) -> Built
    ensures value { result ≡ built_by (bank_verdict max_rate (length sets.old)) max_rate }
    ensures sets_after { sets.new
        ≡ table_after (bank_verdict max_rate (length sets.old)) (bank_of max_rate) sets.old }
{
    build_in(max_rate, Mode::Ported, &mut sets[..])
}

// W5. `build` with every set in a mode.
pub fn build_in(max_rate: f64, mode: Mode, sets: &mut [f32]) -> Built
    ensures value { result ≡ built_by (bank_verdict max_rate (length sets.old)) max_rate }
    ensures sets_after { sets.new
        ≡ table_after (bank_verdict max_rate (length sets.old)) (bank_in mode max_rate) sets.old }
{
    let n = bank_choice::steps(max_rate);
    if n == 0 {
        return Built::Refused(1);
    }
    if sets.len() != bank_length(max_rate) {
        return Built::Refused(2);
    }
    write_sets(max_rate, n, SET_LENGTH, &mut sets[..], mode);
    Built::Sets(n)
}
