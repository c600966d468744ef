// The items of a stretch once its quality is at rest: nothing of the state changes but the count.
ghost use Rattle.std.specs.Prelude.{◌≡◌, true, ◌+◌, length};
ghost use Rattle.variable_delay.specs.Reader.{stored, position_of};
ghost use Rattle.bank_read.specs.Inner.{read_of};
ghost use Rattle.stretch_call.specs.Items.{item_due};
ghost use Rattle.item_f32.specs.Item.{item_stored};
ghost use Rattle.stretch.specs.Stretch.{stretch_of};
ghost use Rattle.quality_stretch.specs.Reader.{call_of, leaves, left_by};
ghost use Rattle.quality_stretch.specs.Inner.{at_rest, at_count, Ready};

use super::StretchedQ;
use super::items::ended;
use bank_choice::Choice;
use quality_mode::QualityMode;
use quality_variable_delay::QualityVariableDelayF32;
use variable_delay::VariableDelay;

#[derive(Drop)]
struct Item {
    refusal: u8,
    sample: f32,
}

// One item after i accepted samples. Its sample is 0.0 if it is refused. It leaves as a float, so here a NaN gets its
// one pattern (O3).
fn served<'a>(
    i: u64,
    ring: &mut [f32],
    input: f32,
    delay: f64,
    sets: &'a [f32],
    choice: Choice,
    quality: QualityMode,
) -> Item
    ensures refusal_value { result.refusal ≡ item_due i input delay }
    ensures sample_value { result.refusal ≡ 0 → result.sample ≡ read_of choice quality sets.now
        (stored i ring.old input) (i + 1) (position_of i delay) }
    ensures ring_after { ring.new ≡ item_stored (item_due i input delay) i ring.old input }
{
    let t = item_f32::take(i, &mut ring[..], input, delay);
    let no = t.refusal;
    if no != 0 {
        return Item {
            refusal: no,
            sample: 0.0,
        };
    }
    let y = bank_read::read(sets, choice, quality, &ring[..], i + 1, t.position);
    Item {
        refusal: 0,
        sample: bit_patterns::one_nan_f32(y),
    }
}

fn counted(state: QualityVariableDelayF32, accepted: u64) -> QualityVariableDelayF32
    ensures { result ≡ at_count state accepted }
{
    let current = state.current_quality;
    let target = state.target_quality;
    let rule = state.rule;
    let direction = state.direction;
    QualityVariableDelayF32 {
        maximum: state.maximum,
        margin: state.margin,
        accepted: accepted,
        current_quality: current,
        target_quality: target,
        crossfade_position: state.crossfade_position,
        crossfade_samples: state.crossfade_samples,
        rule: rule,
        direction: direction,
    }
}

// Reads item by item, with the sets chosen once.
fn read_each<'a>(
    state: QualityVariableDelayF32,
    ring: &mut [f32],
    sets: &'a [f32],
    max_rate: f64,
    inputs: &'a [f32],
    delays: &'a [f64],
    quality: QualityMode,
    playback_rate: f64,
    out: &mut [f32],
) -> StretchedQ
    requires { Ready sets.now max_rate quality playback_rate state (length ring.old)
        × (at_rest state quality playback_rate ≡ true)
        × (length delays.now ≡ length inputs.now) × (length out.old ≡ length inputs.now) }
    ensures { leaves result ring.new out.new ≡ left_by out.old
        (stretch_of (call_of sets.now max_rate quality playback_rate) state ring.old
        inputs.now delays.now) }
{
    let choice = bank_choice::choice_or_zero(max_rate, playback_rate);
    let n = inputs.len();
    let mut i = state.accepted;
    let mut k: usize = 0;
    while k < n {
        let t = served(
            i,
            &mut ring[..],
            inputs[k],
            delays[k],
            sets,
            choice,
            quality,
        );
        if t.refusal != 0 {
            return ended(counted(state, i), k, t.refusal);
        }
        out[k] = t.sample;
        i += 1;
        k += 1;
    }
    ended(counted(state, i), k, 0)
}

// In Draft the rest is a stretch of its reading. If the quality reads one table, it is a stretch of the reader over
// that table, which reads two items at once.
pub(crate) fn read_on<'a>(
    state: QualityVariableDelayF32,
    ring: &mut [f32],
    sets: &'a [f32],
    max_rate: f64,
    inputs: &'a [f32],
    delays: &'a [f64],
    quality: QualityMode,
    playback_rate: f64,
    out: &mut [f32],
) -> StretchedQ
    requires { Ready sets.now max_rate quality playback_rate state (length ring.old)
        × (at_rest state quality playback_rate ≡ true)
        × (length delays.now ≡ length inputs.now) × (length out.old ≡ length inputs.now) }
    ensures { leaves result ring.new out.new ≡ left_by out.old
        (stretch_of (call_of sets.now max_rate quality playback_rate) state ring.old
        inputs.now delays.now) }
{
    let plain = VariableDelay {
        maximum: state.maximum,
        margin: state.margin,
        accepted: state.accepted,
    };
    if quality_mode::same(quality, QualityMode::Draft) {
        let a = draft_stretch::process_stretch(plain, &mut ring[..], inputs, delays, &mut out[..]);
        return ended(counted(state, a.state.accepted), a.done, a.refusal);
    }
    let choice = bank_choice::choice_or_zero(max_rate, playback_rate);
    let table = bank_read::one_table(sets, choice, quality);
    if table.len() > 0 {
        let taps = quality_mode::taps(quality);
        let phases = quality_mode::phases(quality);
        let a = sinc_stretch_f32::process_stretch(
            plain,
            &mut ring[..],
            inputs,
            delays,
            &mut out[..],
            table,
            taps,
            phases,
        );
        return ended(counted(state, a.state.accepted), a.done, a.refusal);
    }
    read_each(
        state,
        &mut ring[..],
        sets,
        max_rate,
        inputs,
        delays,
        quality,
        playback_rate,
        &mut out[..],
    )
}
