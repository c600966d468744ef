// The calls of the engine that the letter of a line names, each with whether what it hands out is what the line says.
use crate::calls::{Turn, step, steps, turn_of};
use crate::letters::{Found, Player};
use bit_patterns::float_of;
use modulation_engine::ModulationEngine;
use modulation_params::ModulationParams;

fn called(params: ModulationParams, turn: Turn, agrees: bool) -> Found {
    Found {
        player: Player {
            engine: turn.engine,
            params,
        },
        agrees: Some(agrees),
    }
}

// `o` opens an engine, `t` sets its sample rate, `d` its seed, `r` resets it. The third word is the refusal number, 0
// for none.
pub fn call(
    e: ModulationEngine,
    p: ModulationParams,
    letter: u8,
    a: u64,
    b: u64,
    refusal: u64,
) -> Found {
    let opened = match letter {
        b'o' => ModulationEngine::new(float_of(a), b),
        b't' => e.set_sample_rate(float_of(a)),
        b'd' => e.set_seed(a),
        _ => e.reset(),
    };
    let turn = turn_of(e, opened);
    called(p, turn, turn.refusal == refusal)
}

// `n` makes some steps and compares the offsets of the last. `x` makes one step, which is refused by this number.
pub fn stepped(
    e: ModulationEngine,
    p: ModulationParams,
    letter: u8,
    a: u64,
    b: u64,
    c: u64,
) -> Found {
    if letter == b'n' {
        let turn = steps(e, p, a);
        let sides = turn.left == b && turn.right == c;
        return called(p, turn, turn.refusal == 0 && sides);
    }
    let turn = step(e, p);
    called(p, turn, turn.refusal == a)
}
