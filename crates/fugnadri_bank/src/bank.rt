// T3, T4. The bank: how many sets and f32 it needs, the rate of each set, its building, and the choice for a rate.
ghost use Rattle.std.specs.Prelude.{◌≡◌, length};
ghost use Rattle.windowed_sinc.specs.Table.{table_after};
ghost use Rattle.bank_choice.specs.Rates.{sets_of, set_rate_of};
ghost use Rattle.bank_choice.specs.Choosing.{selected_of, choice_in, number_of as refusal_of};
ghost use Rattle.sinc_bank_f32.specs.Sets.{set_of, bank_of, bank_length};
ghost use Rattle.sinc_bank_f32.specs.Building.{set_verdict, bank_verdict, built_by, number_of};

use bank_choice::{Choice, Selected};
use sinc_bank_f32::Built;

#[unsafe(no_mangle)]
pub extern "C" fn fugnadri_bank_length(max_rate: f64) -> usize
    ensures { result ≡ bank_length max_rate }
{
    sinc_bank_f32::bank_length(max_rate)
}

#[unsafe(no_mangle)]
pub extern "C" fn fugnadri_bank_steps(max_rate: f64) -> usize
    ensures { result ≡ sets_of max_rate }
{
    bank_choice::steps(max_rate)
}

// The answer is zero if there is no such set.
#[unsafe(no_mangle)]
pub extern "C" fn fugnadri_bank_set_rate(max_rate: f64, set: usize) -> f64
    ensures { result ≡ set_rate_of max_rate set }
{
    bank_choice::set_rate(max_rate, set)
}

fn refusal(s: Selected) -> u8
    ensures { result ≡ refusal_of s }
{
    match s {
        Selected::Sets(_) => 0,
        Selected::Refused(k) => k,
    }
}

fn choice(s: Selected) -> Choice
    ensures { result ≡ choice_in s }
{
    match s {
        Selected::Sets(c) => c,
        Selected::Refused(_) => Choice {
            safe: 0,
            tighter: 0,
            which: 0,
            blend: 0.0,
        },
    }
}

// The answer is 1 if the bank's rate is out of range, 7 if the rate is a NaN, and otherwise 0. A refusal writes zeros.
#[unsafe(no_mangle)]
pub extern "C" fn fugnadri_bank_choose(
    max_rate: f64,
    rate: f64,
    safe: &mut usize,
    tighter: &mut usize,
    which: &mut u8,
    blend: &mut f32,
) -> u8
    ensures value { result ≡ refusal_of (selected_of max_rate rate) }
    ensures safe_after { safe.new ≡ (choice_in (selected_of max_rate rate)).safe }
    ensures tighter_after { tighter.new ≡ (choice_in (selected_of max_rate rate)).tighter }
    ensures which_after { which.new ≡ (choice_in (selected_of max_rate rate)).which }
    ensures blend_after { blend.new ≡ (choice_in (selected_of max_rate rate)).blend }
{
    let s = bank_choice::choose(max_rate, rate);
    let c = choice(s);
    *safe = c.safe;
    *tighter = c.tighter;
    *which = c.which;
    *blend = c.blend;
    refusal(s)
}

#[unsafe(no_mangle)]
pub extern "C" fn fugnadri_bank_build_set(rate: f64, set: &mut [f32]) -> u8
    ensures value { result ≡ set_verdict rate (length set.old) }
    ensures set_after { set.new ≡
        table_after (set_verdict rate (length set.old)) (set_of rate) set.old }
{
    sinc_bank_f32::build_set(rate, &mut set[..])
}

pub(crate) fn number(b: Built) -> u8
    ensures { result ≡ number_of b }
{
    match b {
        Built::Sets(_) => 0,
        Built::Refused(k) => k,
    }
}

#[unsafe(no_mangle)]
pub extern "C" fn fugnadri_bank_build(max_rate: f64, sets: &mut [f32]) -> u8
    ensures value { result ≡ number_of (built_by (bank_verdict max_rate (length sets.old)) max_rate) }
    ensures sets_after { sets.new ≡
        table_after (bank_verdict max_rate (length sets.old)) (bank_of max_rate) sets.old }
{
    number(sinc_bank_f32::build(max_rate, &mut sets[..]))
}
