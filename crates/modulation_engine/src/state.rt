// G8, N1, N3, N9. Which states are valid, and the number of the refusal.
ghost use Rattle.std.specs.Prelude.{◌≡◌, ◌&&◌};
ghost use Rattle.modulation_engine.specs.Engine.{phases_ok, valid_engine, verdict};

use crate::ModulationEngine;
use oscillator_ranges as ranges;
use refusal_order::both;

impl ModulationEngine {
    // G8. Both phases are in their range.
    pub fn phases_ok(self) -> bool
        ensures { result ≡ phases_ok self }
    {
        both(
            ranges::cycle_ok(self.wow_phase),
            ranges::cycle_ok(self.flutter_phase),
        )
    }

    // G8. Every field is in its range, except for the sample rate, which counts as a setting.
    pub fn valid(self) -> bool
        ensures { result ≡ valid_engine self }
    {
        let wow = self.wow_drift;
        let flutter = self.flutter_drift;
        both(self.phases_ok(), both(wow.valid(), flutter.valid()))
    }

    // N1, N3, N9. The number of the lowest refusal, 0 for none. `arguments` says whether what was handed in beside the
    // state is in range.
    pub(crate) fn refusal(self, arguments: bool) -> u8
        ensures { result ≡ verdict arguments self }
    {
        if both(ranges::sample_rate_ok(self.sample_rate), arguments) {
            if self.valid() { 0 } else { 3 }
        } else {
            1
        }
    }
}
