// The engine's calls. Each gives the engine that it leaves, the refusal number, 0 for none, and the offsets as bit
// patterns, 0 if there are none.
use bit_patterns::bits_of;
use modulation_engine::{ModulationEngine, Opened};
use modulation_params::ModulationParams;
use modulation_sample::Offset;

#[derive(Clone, Copy)]
pub struct Turn {
    pub engine: ModulationEngine,
    pub refusal: u64,
    pub left: u64,
    pub right: u64,
}

// The engine before the first line.
pub fn opened_first() -> ModulationEngine {
    packed_engine::engine_of([0; 15])
}

pub fn turn_of(before: ModulationEngine, opened: Opened) -> Turn {
    match opened {
        Opened::Engine(after) => Turn {
            engine: after,
            refusal: 0,
            left: 0,
            right: 0,
        },
        Opened::Refused(k) => Turn {
            engine: before,
            refusal: u64::from(k),
            left: 0,
            right: 0,
        },
    }
}

fn stepped(after: ModulationEngine, offset: Offset) -> Turn {
    match offset {
        Offset::Delay(d) => Turn {
            engine: after,
            refusal: 0,
            left: bits_of(d.left),
            right: bits_of(d.right),
        },
        Offset::Refused(k) => Turn {
            engine: after,
            refusal: u64::from(k),
            left: 0,
            right: 0,
        },
    }
}

pub fn step(before: ModulationEngine, params: ModulationParams) -> Turn {
    let next = modulation::next(before, params);
    stepped(next.engine, next.offset)
}

// Makes `count` steps and gives what the last of them hands out. If there are none the refusal is 255.
pub fn steps(before: ModulationEngine, params: ModulationParams, count: u64) -> Turn {
    let none = Turn {
        engine: before,
        refusal: 255,
        left: 0,
        right: 0,
    };
    (0..count).fold(none, |turn, _| step(turn.engine, params))
}
