// The delays of a stretch of frames. The engine steps once for each frame and gives the offsets of the left and the
// right channel.
ghost use Rattle.std.specs.Prelude.{◌≡◌, ◌++◌, min, length, drop};
ghost use Rattle.imitation.specs.Delays.{turned_by, left_delays, right_delays};
ghost use Rattle.imitation.specs.Delays.{left_of as Delays·left_of, right_of as Delays·right_of};

use modulation_engine::ModulationEngine;
use modulation_params::ModulationParams;
use modulation_sample::Offset;

#[derive(Clone, Copy)]
pub struct Wandered {
    pub engine: ModulationEngine,
    pub frames: usize,
}

// Fills both slices with delays, for as many frames as both have: `middle` plus the engine's offsets.
pub fn wander(
    engine: ModulationEngine,
    params: ModulationParams,
    middle: f64,
    left: &mut [f64],
    right: &mut [f64],
) -> Wandered
    ensures frames_value { result.frames ≡ min (length left.old) (length right.old) }
    ensures engine_value { result.engine ≡
        turned_by params engine (min (length left.old) (length right.old)) }
    ensures left_after { left.new
        ≡ left_delays params middle engine (min (length left.old) (length right.old))
        ++ drop (min (length left.old) (length right.old)) left.old }
    ensures right_after { right.new
        ≡ right_delays params middle engine (min (length left.old) (length right.old))
        ++ drop (min (length left.old) (length right.old)) right.old }
{
    let n = left.len().min(right.len());
    let mut e = engine;
    for k in 0..n {
        let next = modulation::next(e, params);
        let offset = next.offset;
        left[k] = left_of(middle, offset);
        right[k] = right_of(middle, offset);
        e = next.engine;
    }
    Wandered {
        engine: e,
        frames: n,
    }
}

fn left_of(middle: f64, offset: Offset) -> f64
    ensures { result ≡ Delays·left_of middle offset }
{
    match offset {
        Offset::Delay(d) => middle + d.left,
        Offset::Refused(_) => 0.0 / 0.0,
    }
}

fn right_of(middle: f64, offset: Offset) -> f64
    ensures { result ≡ Delays·right_of middle offset }
{
    match offset {
        Offset::Delay(d) => middle + d.right,
        Offset::Refused(_) => 0.0 / 0.0,
    }
}
