// A whole stretch of the quality reader on plain numbers, for callers that can only pass numbers (W3, W9h).
#![tactic(auto)]

mod through; // the same through pointers

ghost use Rattle.std.specs.Prelude.{◌≡◌, cond};
ghost use Rattle.quality_codes.specs.Codes.{coded, odd_number};
ghost use Rattle.coded_stretch.specs.Coded.{leaves, left_of};

use quality_codes::Coded;
use quality_stretch::StretchedQ;
use refusal_order::both;
pub use through::stretch_through;

// The state after a stretch, how many items were done, and the number of the refusal that ended it, 0 for none.
#[derive(Drop)]
pub struct CodedStretch {
    pub state: Coded,
    pub done: usize,
    pub refusal: u8,
}

fn apart(a: StretchedQ) -> CodedStretch
    ensures { result ≡ record { state = coded a.state; done = a.done; refusal = a.refusal } }
{
    let d = a.state;
    CodedStretch {
        state: quality_codes::encode(d),
        done: a.done,
        refusal: a.refusal,
    }
}

fn number(test: bool, a: u8, b: u8) -> u8
    ensures { result ≡ cond test a b }
{
    if test { a } else { b }
}

// The refusal when a number names nothing: 1 if it is the requested quality's; otherwise 3, unless `v`, the refusal
// without it, is already 1 or 2.
fn odd(asked: bool, v: u8) -> u8
    ensures { result ≡ odd_number asked v }
{
    let early = number(both(1 <= v, v <= 2), v, 3);
    number(asked, early, 1)
}

pub fn process_stretch<'a>(
    state: Coded,
    ring: &mut [f32],
    sets: &'a [f32],
    max_rate: f64,
    inputs: &'a [f32],
    delays: &'a [f64],
    quality: u8,
    playback_rate: f64,
    out: &mut [f32],
) -> CodedStretch
    ensures { leaves result.refusal result.done result.state ring.new out.new
        ≡ left_of sets.now max_rate quality playback_rate state ring.old
        inputs.now delays.now out.old }
{
    let asked = quality <= 3;
    if both(asked, quality_codes::fields_ok(state)) {
        let q = quality_codes::mode(quality);
        let a = quality_stretch::process_stretch(
            quality_codes::decode(state),
            &mut ring[..],
            sets,
            max_rate,
            inputs,
            delays,
            q,
            playback_rate,
            &mut out[..],
        );
        return apart(a);
    }
    let v = quality_stretch::refused_first(
        quality_codes::decode(state),
        sets.len(),
        max_rate,
        ring.len(),
        inputs.len(),
        delays.len(),
        out.len(),
    );
    CodedStretch {
        state: state,
        done: 0,
        refusal: odd(asked, v),
    }
}
