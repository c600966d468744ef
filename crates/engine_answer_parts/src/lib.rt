// The engine's answers (001) taken apart into plain numbers: the refusal, 0 for none, the state, and the offsets.
// They serve a caller that can only take numbers (M1, M2, M5).
#![tactic(auto)]

ghost use Rattle.std.specs.Prelude.{◌≡◌};
ghost use Rattle.modulation_engine.specs.Engine.{number_of};
ghost use Rattle.modulation.specs.Step.{number_of as refusal_of};
ghost use Rattle.modulation.specs.Runs.{left_by};
ghost use Rattle.engine_answer_parts.specs.Offsets.{left_of, right_of};

use modulation_engine::{ModulationEngine, Opened};
use modulation_sample::Offset;

pub fn number(opened: Opened) -> u8
    ensures { result ≡ number_of opened }
{
    match opened {
        Opened::Engine(_) => 0,
        Opened::Refused(k) => k,
    }
}

pub fn left_by(opened: Opened, before: ModulationEngine) -> ModulationEngine
    ensures { result ≡ left_by opened before }
{
    match opened {
        Opened::Engine(after) => after,
        Opened::Refused(_) => before,
    }
}

pub fn refusal(offset: Offset) -> u8
    ensures { result ≡ refusal_of offset }
{
    match offset {
        Offset::Delay(_) => 0,
        Offset::Refused(k) => k,
    }
}

pub fn left_of(offset: Offset) -> f64
    ensures { result ≡ left_of offset }
{
    match offset {
        Offset::Delay(d) => d.left,
        Offset::Refused(_) => 0.0,
    }
}

pub fn right_of(offset: Offset) -> f64
    ensures { result ≡ right_of offset }
{
    match offset {
        Offset::Delay(d) => d.right,
        Offset::Refused(_) => 0.0,
    }
}
