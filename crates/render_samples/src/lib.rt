// What the program `render` does with one sample (X2).
// A WindowedSincF32 of 32 taps and 64 phases reads a ring of 1024 at the delay 512 plus the left offset of an engine
// that steps at every sample. Ring and table are lent; the state goes in by value and comes back.
#![tactic(auto)]

ghost use Rattle.std.specs.Prelude.{◌≡◌};
ghost use Rattle.std.specs.Float.Ieee as Ieee;
ghost use Rattle.std.specs.Float.{binary32};
ghost use Rattle.render_samples.specs.Samples.{delay_of, held_of, after_sample, sample_for};

use modulation_engine::ModulationEngine;
use modulation_sample::Offset;
use variable_delay::VariableDelay;

#[derive(Drop)]
pub struct Rendering {
    pub reader: VariableDelay,
    pub engine: ModulationEngine,
}

// The state after a sample, and the bit pattern of the answer.
#[derive(Drop)]
pub struct Rendered {
    pub state: Rendering,
    pub bits: u32,
}

fn delay_of(offset: Offset) -> f64
    ensures { result ≡ delay_of offset }
{
    match offset {
        Offset::Delay(d) => 512.0 + d.left,
        Offset::Refused(_) => 0.0 / 0.0,
    }
}

// X2. One sample by its bit pattern: the engine steps, then the reader is called. For a refused sample 0.0 is written.
pub fn step<'a>(state: Rendering, ring: &mut [f32], table: &'a [f32], bits: u32) -> Rendered
    ensures state_value { result.state ≡
        (after_sample table.now (held_of state ring.old) (Ieee.of_bits binary32 bits)).state }
    ensures bits_value { result.bits ≡ Ieee.to_bits binary32 (sample_for table.now (held_of state ring.old)
        (Ieee.of_bits binary32 bits)) }
    ensures ring_after { ring.new ≡
        (after_sample table.now (held_of state ring.old) (Ieee.of_bits binary32 bits)).ring }
{
    let engine = state.engine;
    let n = modulation::next(engine, modulation_params::default_params());
    let offset = n.offset;
    let x = bit_patterns::float_of_f32(bits);
    let reader = state.reader;
    let p = sinc_delay_f32::process_sample(reader, ring, x, delay_of(offset), table, 32, 64);
    let answer = p.answer;
    let read = p.state;
    let turned = n.engine;
    Rendered {
        state: Rendering {
            reader: read,
            engine: turned,
        },
        bits: bit_patterns::bits_of_f32(answer_parts::value_f32(answer)),
    }
}
