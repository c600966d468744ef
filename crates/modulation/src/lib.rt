// The original's ModulationEngine::next (001): one step of two oscillators whose rates wander (M5).
// The drifts are drawn, the offsets rendered, then the phases advance, in the original's order. What cannot be served
// is refused by its number, and then nothing has changed.
#![tactic(auto)]

ghost use Rattle.std.specs.Prelude.{◌≡◌, ◌&&◌};
ghost use Rattle.modulation.specs.Step.{next_of};

use modulation_engine::ModulationEngine;
use modulation_params::ModulationParams;
use modulation_sample::{Next, Offset};
use oscillator_ranges as ranges;
use refusal_order::both;

// M5. Gives the delay offsets in samples, left and right, and moves the engine on by one sample.
pub fn next(engine: ModulationEngine, params: ModulationParams) -> Next
    ensures { result ≡ next_of engine params }
{
    let settings = both(
        ranges::sample_rate_ok(engine.sample_rate),
        params.in_range(),
    );
    if settings {
        let wow = engine.wow_drift;
        let flutter = engine.flutter_drift;
        let wow = wow.next(
            min_max::clamp(params.wow_rate_hz * 0.5, 0.025, 2.0),
            engine.sample_rate,
        );
        let flutter = flutter.next(
            min_max::clamp(params.flutter_rate_hz * 0.1, 0.5, 3.0),
            engine.sample_rate,
        );
        let drifts = both(wow.refusal == 0, flutter.refusal == 0);
        if both(engine.phases_ok(), drifts) {
            let after = modulation_sample::stepped(engine, params, wow, flutter);
            let offset = modulation_sample::render(engine, params);
            return Next {
                engine: after,
                offset: Offset::Delay(offset),
            };
        }
        return Next {
            engine,
            offset: Offset::Refused(3),
        };
    }
    Next {
        engine,
        offset: Offset::Refused(1),
    }
}
