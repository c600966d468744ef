// The original's SincBankF32 (000) without its tables: how many sets a bank has, their rates, and which two sets a rate
// reads (T3, T4).
#![tactic(auto)]

mod rates; // how many sets, and the rate of each
mod search; // how many of them are slower than a rate

ghost use Rattle.std.specs.Prelude.{◌≡◌, min, true, not, is_nan};
ghost use Rattle.bank_choice.specs.Rates.{bank_ok};
ghost use Rattle.bank_choice.specs.Choosing.{lower_of, which_of, chosen_of, choose_verdict, selected_of};
ghost use Rattle.bank_choice.specs.Inner.{choice_of};

pub use rates::{set_rate, steps};

// Which sets a rate reads, counted from 0. `which` is 0 for the safe set alone, 1 for the tighter one alone, and 2 for
// both, mixed by `blend` (T4).
#[derive(Clone, Copy)]
pub struct Choice {
    pub safe: usize,
    pub tighter: usize,
    pub which: u8,
    pub blend: f32,
}

// A choice, or the number of a refusal.
#[derive(Clone, Copy)]
pub enum Selected {
    Sets(Choice),
    Refused(u8),
}

// N7. Only a NaN differs from itself.
pub fn is_number(x: f64) -> bool
    ensures { result ≡ not (is_nan x) }
{
    x == x
}

fn at_most(x: usize, top: usize) -> usize
    ensures { result ≡ min x top }
{
    if x < top { x } else { top }
}

fn lower(max_rate: f64, steps: usize, k: usize) -> f64
    ensures { result ≡ lower_of max_rate steps k }
{
    if k == 0 {
        1.0
    } else {
        rates::rate(max_rate, steps, k)
    }
}

fn which(close: bool, low: bool, high: bool) -> u8
    ensures { result ≡ which_of close low high }
{
    if close {
        return 0;
    }
    if low {
        return 0;
    }
    if high { 1 } else { 2 }
}

fn chosen(max_rate: f64, rate: f64) -> Choice
    requires { bank_ok max_rate ≡ true }
    ensures { result ≡ chosen_of max_rate rate }
{
    let n = steps(max_rate);
    let r = min_max::clamp(rate, 1.0, max_rate);
    let safe = at_most(search::among(max_rate, n, r), n - 1);
    let tighter = at_most(safe + 1, n - 1);
    let own = rates::rate(max_rate, n, safe + 1);
    let below = lower(max_rate, n, safe);
    let blend = narrowing::narrow((r - below) / (own - below));
    let close = magnitude::within(own - below, -2.220446049250313e-16, 2.220446049250313e-16);
    Choice {
        safe: safe,
        tighter: tighter,
        which: which(close, blend <= 1.1920929e-7, blend >= 0.9999999),
        blend: min_max::clamp_f32(blend, 0.0, 1.0),
    }
}

// The sets that a rate reads, for readers that have tested both rates. All fields are zero if the bank's rate is out of
// range; a NaN as rate goes through the same arithmetic.
pub fn choice_or_zero(max_rate: f64, rate: f64) -> Choice
    ensures { result ≡ choice_of max_rate rate }
{
    if magnitude::within(max_rate, 1.0, 2.0) {
        chosen(max_rate, rate)
    } else {
        Choice {
            safe: 0,
            tighter: 0,
            which: 0,
            blend: 0.0,
        }
    }
}

// N1, N7. The number of the refusal, 0 for none: 1 for the bank's rate, then 7 for a rate that is a NaN.
fn refusal(max_rate: f64, rate: f64) -> u8
    ensures { result ≡ choose_verdict max_rate rate }
{
    if magnitude::within(max_rate, 1.0, 2.0) {
        if is_number(rate) { 0 } else { 7 }
    } else {
        1
    }
}

pub fn choose(max_rate: f64, rate: f64) -> Selected
    ensures { result ≡ selected_of max_rate rate }
{
    let no = refusal(max_rate, rate);
    if no == 0 {
        Selected::Sets(choice_or_zero(max_rate, rate))
    } else {
        Selected::Refused(no)
    }
}
