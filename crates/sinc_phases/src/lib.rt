// Where a position falls in a sinc table: the first tap, and the place between two rows (K3).
// Tables of both widths use it.
#![tactic(auto)]

ghost use Rattle.std.specs.Prelude.{◌≡◌, ◌&&◌, cond, ◌^◌, ◌≤◌, pos};
ghost use Rattle.ring.specs.Places.{position_ok};
ghost use Rattle.sinc_settings.specs.Ranges.{taps_ok, phases_ok};
ghost use Rattle.sinc_phases.specs.Phases.{cut_to, phase_at, first_tap};

// 000's `phase0` and `blend`: the row, and how far the position lies from it towards the next.
#[derive(Drop)]
pub struct Phase {
    pub phase: usize,
    pub blend: f64,
}

// 000's `(x.floor() as usize).min(top)`.
fn cut_to(x: f64, top: u64) -> u64
    requires { top ≤ 2 ^ 53 }
    ensures { result ≡ cut_to top x }
{
    if x > 0.0 {
        if x < (top as f64) {
            integer_part::floor(x) as u64
        } else {
            top
        }
    } else {
        0
    }
}

// G3, G5. Both the phases and the position are in range.
fn phases_in_range(position: f64, phases: usize) -> bool
    ensures { result ≡ (phases_ok phases && position_ok position) }
{
    if sinc_settings::phases_ok(phases) {
        ring::position_ok(position)
    } else {
        false
    }
}

// The phase and the blend of a position; both are zero if the phases or the position are out of range.
pub fn phase_at(position: f64, phases: usize) -> Phase
    ensures { result ≡ phase_at position phases }
{
    if phases_in_range(position, phases) {
        let x = integer_part::fraction(position) * (phases as f64);
        let phase = cut_to(x, (phases - 1) as u64);
        Phase {
            phase: phase as usize,
            blend: x - ((phase as i64) as f64),
        }
    } else {
        Phase {
            phase: 0,
            blend: 0.0,
        }
    }
}

// G3, G5. Both the taps and the position are in range.
fn taps_in_range(position: f64, taps: usize) -> bool
    ensures { result ≡ (taps_ok taps && position_ok position) }
{
    if sinc_settings::taps_ok(taps) {
        ring::position_ok(position)
    } else {
        false
    }
}

// K3. The number of the first tap, taps / 2 - 1 before the integer part; 0 if the taps or the position are out of
// range.
pub fn first_tap(position: f64, taps: usize) -> i64
    ensures { result ≡ cond (taps_ok taps && position_ok position) (first_tap position taps) (pos 0) }
{
    if taps_in_range(position, taps) {
        integer_part::floor(position) - (taps / 2 - 1) as i64
    } else {
        0
    }
}
