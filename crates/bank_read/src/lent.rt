// What a quality other than Draft reads: its table in one of two lent sets, or its tables in both, blended.
ghost use Rattle.std.specs.Prelude.{◌≡◌, true, ◌+◌, ◌*◌, ◌≤◌, length};
ghost use Rattle.ring.specs.Places.{position_ok};
ghost use Rattle.sinc_bank_f32.specs.Sets.{set_length};
ghost use Rattle.sinc_bank_f32.specs.Parts.{pick_slice, lent_of};
ghost use Rattle.bank_read.specs.Bank.{set_at, table_at, blended, tables_at};
ghost use Rattle.bank_read.specs.Inner.{sets_ok};

use bank_choice::Choice;
use constants::SET_LENGTH;
use fused_chain::Pair;
use quality_mode::QualityMode;

// Reads the quality's table in the tighter set, or in the safe one.
fn table_read<'a>(
    safe: &'a [f32],
    tighter: &'a [f32],
    tight: bool,
    quality: QualityMode,
    source: &'a [f32],
    count: u64,
    position: f64,
) -> f32
    requires { (length safe.now ≡ set_length) × (length tighter.now ≡ set_length) × (position_ok position ≡ true) }
    ensures { result ≡ table_at quality (pick_slice tight tighter.now safe.now)
        source.now count position }
{
    let table = sinc_bank_f32::chosen(safe, tighter, tight, quality);
    let taps = quality_mode::taps(quality);
    let phases = quality_mode::phases(quality);
    sinc_read_f32::read(table, taps, phases, source, count, position)
}

// Reads the quality's tables in both sets at once.
fn both_read<'a>(
    safe: &'a [f32],
    tighter: &'a [f32],
    quality: QualityMode,
    source: &'a [f32],
    count: u64,
    position: f64,
) -> Pair
    requires { (length safe.now ≡ set_length) × (length tighter.now ≡ set_length) × (position_ok position ≡ true) }
    ensures a_value { result.a ≡ table_at quality safe.now source.now count position }
    ensures b_value { result.b ≡ table_at quality tighter.now source.now count position }
{
    let a = sinc_bank_f32::chosen(safe, tighter, false, quality);
    let b = sinc_bank_f32::chosen(safe, tighter, true, quality);
    let taps = quality_mode::taps(quality);
    let phases = quality_mode::phases(quality);
    sinc_read_f32::read_pair(a, b, taps, phases, source, count, position)
}

// The reading of one set, or the blend of both.
fn blend_read<'a>(
    safe: &'a [f32],
    tighter: &'a [f32],
    which: u8,
    blend: f32,
    quality: QualityMode,
    source: &'a [f32],
    count: u64,
    position: f64,
) -> f32
    requires { (length safe.now ≡ set_length) × (length tighter.now ≡ set_length) × (position_ok position ≡ true) }
    ensures { result ≡ blended which blend (table_at quality safe.now source.now count position)
        (table_at quality tighter.now source.now count position) }
{
    if which == 1 {
        return table_read(safe, tighter, true, quality, source, count, position);
    }
    if which == 0 {
        return table_read(safe, tighter, false, quality, source, count, position);
    }
    let read = both_read(safe, tighter, quality, source, count, position);
    let a = read.a;
    let b = read.b;
    a + (b - a) * blend
}

fn set_at(sets: &[f32], k: usize) -> &[f32]
    requires { (k + 1) * 1081648 ≤ length sets.now }
    ensures { result.now ≡ set_at sets.now k }
{
    let a = k * SET_LENGTH;
    let e = a + SET_LENGTH;
    &sets[a..e]
}

// The quality's table in set k.
pub(crate) fn table_in<'a>(sets: &'a [f32], k: usize, quality: QualityMode) -> &'a [f32]
    requires { (k + 1) * 1081648 ≤ length sets.now }
    ensures { result.now ≡ lent_of quality (set_at sets.now k) }
{
    let set = set_at(sets, k);
    sinc_bank_f32::chosen(set, set, true, quality)
}

// Lends the two sets of the choice.
pub(crate) fn tables_read<'a>(
    sets: &'a [f32],
    choice: Choice,
    quality: QualityMode,
    source: &'a [f32],
    count: u64,
    position: f64,
) -> f32
    requires { (sets_ok choice (length sets.now) ≡ true) × (position_ok position ≡ true) }
    ensures { result ≡ tables_at choice quality sets.now source.now count position }
{
    let safe = set_at(sets, choice.safe);
    let tighter = set_at(sets, choice.tighter);
    blend_read(
        safe,
        tighter,
        choice.which,
        choice.blend,
        quality,
        source,
        count,
        position,
    )
}
