// The inner reader of an oversampled one: 000's VariableDelay over any kernel, as plain numbers (W11d).
// A refused inner sample gives 0.0 and does not count, as in 000.
#![tactic(auto)]

ghost use Rattle.std.specs.Prelude.{◌≡◌};
ghost use Rattle.kernels.specs.Kernels.{read_by};
ghost use Rattle.variable_delay.specs.Reader.{processed};
ghost use Rattle.inner_reader.specs.Inner.{stepped_of, ring_stepped};

use kernels::Kernel;
use variable_delay::VariableDelay;

#[derive(Drop)]
pub struct Stepped {
    pub accepted: u64,
    pub sample: f64,
}

// One call of the inner reader. The outer reader tests the kernel's settings and its table before it, so these two
// tests of the inner one pass.
pub fn step<'a>(
    state: VariableDelay,
    kernel: Kernel,
    table: &'a [f64],
    ring: &mut [f64],
    input: f64,
    delay: f64,
) -> Stepped
    ensures value { result ≡ stepped_of (processed (read_by kernel table.now) state ring.old input
        delay) }
    ensures ring_after { ring.new ≡ ring_stepped state ring.old input delay }
{
    let settings_tested = true;
    let table_tested = true;
    let a = variable_delay::accept(
        state,
        settings_tested,
        table_tested,
        &mut ring[..],
        input,
        delay,
    );
    if a.refusal != 0 {
        return Stepped {
            accepted: state.accepted,
            sample: 0.0,
        };
    }
    let y = kernels::read(kernel, table, &ring[..], a.count, a.position);
    Stepped {
        accepted: a.count,
        sample: y,
    }
}
