// One call: it is refused by number and changes nothing, or it goes through both halves.
ghost use Rattle.std.specs.Prelude.{◌≡◌};
ghost use Rattle.cascaded_delay.specs.Reader.{from_of, lent_of, called, processed_of};

use super::{CascadedOversampledVariableDelay4x, Lengths, Processed, halves, refusals};
use kernels::Kernel;

// 000's `previous_delay` at the first phase: the first call starts at its own delay.
fn start(state: CascadedOversampledVariableDelay4x, delay: f64) -> f64
    ensures { result ≡ from_of state delay }
{
    if state.accepted == 0 {
        delay
    } else {
        state.previous
    }
}

// 000's process_sample. What is refused is tested before anything is pushed; 000 pushes first.
pub fn process_sample<'a>(
    state: CascadedOversampledVariableDelay4x,
    kernel: Kernel,
    table: &'a [f64],
    halfband: &'a [f64],
    last: &'a [f64],
    up1: &mut [f64],
    up2: &mut [f64],
    down2: &mut [f64],
    down1: &mut [f64],
    ring: &mut [f64],
    input: f64,
    delay: f64,
) -> Processed
    ensures value { result ≡
        processed_of (called kernel state (lent_of table.now halfband.now last.now
        up1.old up2.old down2.old
        down1.old ring.old) input delay) }
    ensures up1_after { up1.new ≡
        (called kernel state (lent_of table.now halfband.now last.now up1.old
        up2.old down2.old down1.old ring.old) input delay).up1 }
    ensures up2_after { up2.new ≡
        (called kernel state (lent_of table.now halfband.now last.now up1.old
        up2.old down2.old down1.old ring.old) input delay).up2 }
    ensures down2_after { down2.new ≡
        (called kernel state (lent_of table.now halfband.now last.now up1.old
        up2.old down2.old down1.old ring.old) input delay).down2 }
    ensures down1_after { down1.new ≡
        (called kernel state (lent_of table.now halfband.now last.now up1.old
        up2.old down2.old down1.old ring.old) input delay).down1 }
    ensures ring_after { ring.new ≡
        (called kernel state (lent_of table.now halfband.now last.now up1.old
        up2.old down2.old down1.old ring.old) input delay).ring }
{
    let lengths = Lengths {
        table: table.len(),
        halfband: halfband.len(),
        last: last.len(),
        up1: up1.len(),
        up2: up2.len(),
        down2: down2.len(),
        down1: down1.len(),
        ring: ring.len(),
    };
    let no = refusals::refusal(state, kernel, lengths, input, delay);
    if no != 0 {
        return Processed {
            state: state,
            answer: answer::answered(no, 0.0),
        };
    }
    fir_filter::push_number(&mut up1[..], state.accepted, input);
    let from = start(state, delay);
    let inner = halves::both_halves(
        state,
        kernel,
        table,
        halfband,
        &up1[..],
        &mut up2[..],
        &mut down2[..],
        &mut down1[..],
        &mut ring[..],
        from,
        delay,
    );
    let accepted = state.accepted + 1;
    let y = fir_filter::output(last, &down1[..], 2 * accepted, 1, 0);
    Processed {
        state: CascadedOversampledVariableDelay4x {
            maximum: state.maximum,
            margin: state.margin,
            accepted: accepted,
            inner: inner,
            previous: delay,
        },
        answer: answer::answered(0, y),
    }
}
