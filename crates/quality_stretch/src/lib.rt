// A whole stretch per call for QualityVariableDelayF32, with one quality and one rate (W3, W3f): the single calls in
// order, up to the first that is refused. The refusals 1 to 3 are tested once, before the first item.
#![tactic(auto)]

mod items; // one item
mod rest; // the items after the fade

ghost use Rattle.std.specs.Prelude.{◌≡◌};
ghost use Rattle.quality_stretch.specs.Reader.{leaves, left_of};
ghost use Rattle.quality_stretch.specs.Inner.{first_due};

use constants::LIMIT;
use items::{at_rest, ended, fading, single};
use quality_mode::QualityMode;
use quality_variable_delay::QualityVariableDelayF32;
use refusal_order::both;

// The state after a stretch, how many items were done, and the number of the refusal that ended it, 0 for none.
#[derive(Drop)]
pub struct StretchedQ {
    pub state: QualityVariableDelayF32,
    pub done: usize,
    pub refusal: u8,
}

// W3c. The number by which a stretch is refused before its first item, 0 for none, with a bank of `lent` f32 values.
pub fn refused_first(
    state: QualityVariableDelayF32,
    lent: usize,
    max_rate: f64,
    len: usize,
    inputs: usize,
    delays: usize,
    out: usize,
) -> u8
    ensures { result ≡ first_due lent max_rate state len inputs delays out }
{
    let needed = ring::length_for(state.maximum, state.margin);
    let bank = sinc_bank_f32::bank_length(max_rate);
    let t1 = both(
        needed != 0,
        both(quality_fade::length_ok(state.crossfade_samples), bank != 0),
    );
    let t2 = both(
        both(len == needed, lent == bank),
        both(delays == inputs, out == inputs),
    );
    let t3 = both(
        state.accepted <= LIMIT,
        returning_fade::place_ok(fading(state)),
    );
    answer::first(t1, t2, t3, true, true, true, true, true)
}

// Fills `out` from the inputs, each read at its delay. While a fade runs each item is a single call; from the first
// item on that finds the stretch's quality at rest, only the count changes, and the sets are chosen once. A stretch
// that begins at rest is seen to first: since `read_on` then has two callers, the compiler leaves its loops apart.
pub fn process_stretch<'a>(
    state: QualityVariableDelayF32,
    ring: &mut [f32],
    sets: &'a [f32],
    max_rate: f64,
    inputs: &'a [f32],
    delays: &'a [f64],
    quality: QualityMode,
    playback_rate: f64,
    out: &mut [f32],
) -> StretchedQ
    ensures { leaves result ring.new out.new ≡ left_of sets.now max_rate quality
        playback_rate state ring.old inputs.now delays.now out.old }
{
    let n = inputs.len();
    let no = refused_first(
        state,
        sets.len(),
        max_rate,
        ring.len(),
        n,
        delays.len(),
        out.len(),
    );
    if no != 0 {
        return ended(state, 0, no);
    }
    if at_rest(state, quality, playback_rate) {
        return rest::read_on(
            state,
            &mut ring[..],
            sets,
            max_rate,
            inputs,
            delays,
            quality,
            playback_rate,
            &mut out[..],
        );
    }
    let mut s = state;
    let mut k: usize = 0;
    while k < n {
        if at_rest(s, quality, playback_rate) {
            let r = rest::read_on(
                s,
                &mut ring[..],
                sets,
                max_rate,
                &inputs[k..],
                &delays[k..],
                quality,
                playback_rate,
                &mut out[k..],
            );
            let left = r.state;
            return ended(left, k + r.done, r.refusal);
        }
        let c = single(
            s,
            &mut ring[..],
            sets,
            max_rate,
            inputs[k],
            delays[k],
            quality,
            playback_rate,
        );
        s = c.state;
        if c.number != 0 {
            return ended(s, k, c.number);
        }
        out[k] = c.sample;
        k += 1;
    }
    ended(s, k, 0)
}
