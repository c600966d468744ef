// The original's SincBankF32::sample (000): what a quality reads from a bank of lent sets.
#![tactic(auto)]

mod lent; // one set's table, or two blended

ghost use Rattle.std.specs.Prelude.{◌≡◌, ◌&&◌};
ghost use Rattle.bank_read.specs.Bank.{sample_verdict, sampled_of};
ghost use Rattle.bank_read.specs.Inner.{sets_ok, read_of};
ghost use Rattle.bank_read.specs.OneTable.{one_table};

use answer::AnswerF32;
use bank_choice::Choice;
use constants::SET_LENGTH;
use quality_mode::QualityMode;
use refusal_order::both;

fn sets_ok(choice: &Choice, len: usize) -> bool
    ensures { result ≡ sets_ok choice.now len }
{
    let n = len / SET_LENGTH;
    if choice.safe < n {
        choice.tighter < n
    } else {
        false
    }
}

// What a quality reads by a choice of sets, for readers that have tested everything. It is 0.0 if the bank does not
// have those sets or the position is out of range. Draft reads no set.
pub fn read<'a>(
    sets: &'a [f32],
    choice: Choice,
    quality: QualityMode,
    source: &'a [f32],
    count: u64,
    position: f64,
) -> f32
    ensures { result ≡ read_of choice quality sets.now source.now count position }
{
    if quality_mode::same(quality, QualityMode::Draft) {
        return cubic_farrow_f32::read(source, count, position);
    }
    if sets_ok(&choice, sets.len()) {
        if ring::position_ok(position) {
            return lent::tables_read(sets, choice, quality, source, count, position);
        }
    }
    0.0
}

// The one table that a quality reads by a choice of sets. It is empty if the quality reads two sets or none, or if the
// bank does not have the sets.
pub fn one_table<'a>(sets: &'a [f32], choice: Choice, quality: QualityMode) -> &'a [f32]
    ensures { result.now ≡ one_table choice quality sets.now }
{
    if !sets_ok(&choice, sets.len()) {
        return &sets[0..0];
    }
    if choice.which == 0 {
        return lent::table_in(sets, choice.safe, quality);
    }
    if choice.which == 1 {
        return lent::table_in(sets, choice.tighter, quality);
    }
    &sets[0..0]
}

// N1, N2, N7. The number of the refusal, 0 for none: the bank's rate and the position must be in range, the bank must
// have its length, and the rate must be no NaN.
fn refusal(max_rate: f64, rate: f64, len: usize, position: f64) -> u8
    ensures { result ≡ sample_verdict max_rate rate len position }
{
    let t1 = both(
        magnitude::within(max_rate, 1.0, 2.0),
        ring::position_ok(position),
    );
    let t2 = len == sinc_bank_f32::bank_length(max_rate);
    let t7 = bank_choice::is_number(rate);
    answer::first(t1, t2, true, true, true, true, t7, true)
}

// What a quality reads at a rate from a whole bank, or the number of the refusal.
pub fn sample<'a>(
    sets: &'a [f32],
    max_rate: f64,
    quality: QualityMode,
    rate: f64,
    source: &'a [f32],
    count: u64,
    position: f64,
) -> AnswerF32
    ensures { result ≡ sampled_of sets.now max_rate rate quality source.now count position }
{
    let no = refusal(max_rate, rate, sets.len(), position);
    let choice = bank_choice::choice_or_zero(max_rate, rate);
    answer::answered_f32(no, read(sets, choice, quality, source, count, position))
}
