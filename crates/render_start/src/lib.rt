// The beginning of a rendering: the lent ring and table are tested for their lengths before anything is written (X2).
#![tactic(auto)]

ghost use Rattle.std.specs.Prelude.{◌≡◌, length};
ghost use Rattle.render_start.specs.Start.{opened_of, ring_opened, table_opened};

use modulation_engine::ModulationEngine;
use render_samples::Rendering;
use sinc_settings::Settings;

// The state at the beginning, or the number of a refusal.
#[derive(Drop)]
pub enum Opened {
    Started(Rendering),
    Refused(u8),
}

// Refuses by 2, or opens the reader over a ring of 1024, writes the table of 65 rows of 32, and makes the engine with
// seed 1 at 48000 Hz. With the margin 0 the maximum delay 1016 is the largest for which a ring of 1024 is enough (G1).
// If the lengths are right nothing else is refused, as the proof shows.
pub fn open(ring: &mut [f32], table: &mut [f32]) -> Opened
    ensures value { result ≡ opened_of (length ring.old) (length table.old) }
    ensures ring_after { ring.new ≡ ring_opened ring.old (length table.old) }
    ensures table_after { table.new ≡ table_opened (length ring.old) table.old }
{
    if ring.len() != 1024 {
        return Opened::Refused(2);
    }
    if table.len() != 2080 {
        return Opened::Refused(2);
    }
    let variable_delay::Opened::Reader(reader) = variable_delay_f32::open(1016, 0, ring) else {
        return Opened::Refused(1);
    };
    let windowed_sinc_f32::Built::Kernel(_) = windowed_sinc_f32::new(
        Settings {
            taps: 32,
            phases: 64,
            cutoff: 1.0,
            beta: 12.0,
        },
        table,
    ) else {
        return Opened::Refused(1);
    };
    let modulation_engine::Opened::Engine(engine) = ModulationEngine::new(48000.0, 1) else {
        return Opened::Refused(1);
    };
    Opened::Started(Rendering {
        reader: reader,
        engine: engine,
    })
}
