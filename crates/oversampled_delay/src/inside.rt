// One phase's call of the inner reader, without the tests that the outer call has made (W11d).
ghost use Rattle.std.specs.Prelude.{◌≡◌, ◌≤◌, ◌⊎◌, length};
ghost use Rattle.std.specs.Float.{binary64};
ghost use Rattle.std.specs.Float.Ieee.{mul, div};
ghost use Rattle.high_delay.specs.Between.{num, delay_at};
ghost use Rattle.kernels.specs.Kernels.{read_by};
ghost use Rattle.variable_delay.specs.Reader.{processed};
ghost use Rattle.inner_reader.specs.Inner.{stepped_of, ring_stepped};
ghost use Rattle.oversampled_delay.specs.Inside.{OnlyFour};

use inner_reader::Stepped;
use kernels::Kernel;
use variable_delay::VariableDelay;

// The factor as a number. It is 2 or 4, and a constant is quicker than a cast.
pub(crate) fn rate_of(factor: usize) -> f64
    requires { (factor ≡ 2) ⊎ (factor ≡ 4) }
    ensures { result ≡ num factor }
{
    if factor == 2 { 2.0 } else { 4.0 }
}

// `high_delay::high_delay` for a small phase, whose cast of 32 bits is quicker than one of 64.
pub(crate) fn phase_delay(previous: f64, delay: f64, next: usize, rate: f64) -> f64
    requires { next ≤ 4 }
    ensures { result ≡ mul binary64 (delay_at previous delay (div binary64 (num next) rate)) rate }
{
    let fraction = ((next as u32) as f64) / rate;
    (previous + fraction * (delay - previous)) * rate
}

// `inner_reader::step` where nothing but 4 can be due: a sample that is not finite is refused, any other is stored and
// read behind.
pub(crate) fn step<'a>(
    state: VariableDelay,
    kernel: Kernel,
    table: &'a [f64],
    ring: &mut [f64],
    input: f64,
    delay: f64,
) -> Stepped
    requires { OnlyFour state (length ring.old) delay }
    ensures value { result ≡ stepped_of (processed (read_by kernel table.now) state ring.old input
        delay) }
    ensures ring_after { ring.new ≡ ring_stepped state ring.old input delay }
{
    let i = state.accepted;
    if magnitude::is_finite(input) {
        let at = (i & (ring.len() as u64 - 1)) as usize;
        ring[at] = input;
        let y = kernels::read(kernel, table, &ring[..], i + 1, (i as i64) as f64 - delay);
        return Stepped {
            accepted: i + 1,
            sample: y,
        };
    }
    Stepped {
        accepted: i,
        sample: 0.0,
    }
}
