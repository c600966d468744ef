// The settings and the state that the letter of a line names, each with whether the state is what the line says.
use modulation_engine::ModulationEngine;
use modulation_params::ModulationParams;

// The engine, and the settings of its next steps.
#[derive(Clone, Copy)]
pub struct Player {
    pub engine: ModulationEngine,
    pub params: ModulationParams,
}

// What a letter does, and whether the result is what the line says, if the line has an answer.
#[derive(Clone, Copy)]
pub struct Found {
    pub player: Player,
    pub agrees: Option<bool>,
}

fn set(engine: ModulationEngine, params: ModulationParams) -> Found {
    Found {
        player: Player { engine, params },
        agrees: None,
    }
}

// Settings that are handed in: `w` and `f` are the rate, depth and shape of wow and of flutter, `a` the amounts of
// drift and stereo.
pub fn settings(
    e: ModulationEngine,
    mut p: ModulationParams,
    letter: u8,
    a: f64,
    b: f64,
    c: f64,
) -> Found {
    match letter {
        b'w' => {
            p.wow_rate_hz = a;
            p.wow_depth_cents = b;
            p.wow_shape = c;
        }
        b'f' => {
            p.flutter_rate_hz = a;
            p.flutter_depth_cents = b;
            p.flutter_shape = c;
        }
        _ => {
            p.drift_amount = a;
            p.stereo_amount = b;
        }
    }
    set(e, p)
}

// A digit from 0 to 4 names three of the engine's 15 words.
pub fn state(
    e: ModulationEngine,
    p: ModulationParams,
    from: usize,
    a: u64,
    b: u64,
    c: u64,
) -> Found {
    let w = packed_engine::words_of(e);
    Found {
        player: Player {
            engine: e,
            params: p,
        },
        agrees: Some(
            w.get(from..)
                .is_some_and(|rest| rest.starts_with(&[a, b, c])),
        ),
    }
}
