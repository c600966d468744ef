// The two halves of an accepted call: each takes one sample at twice the rate, and two at four times it.
ghost use Rattle.std.specs.Prelude.{◌≡◌, ◌+◌, ◌*◌, ◌<◌};
ghost use Rattle.fir_filter.specs.Filters.{output_of};
ghost use Rattle.kernels.specs.Kernels.{read_by};
ghost use Rattle.cascaded_delay.specs.Halves.{Ready, turn_of, high_of, quarter_of, half_of, both_of};

use super::CascadedOversampledVariableDelay4x;
use kernels::Kernel;
use variable_delay::VariableDelay;

// One sample at four times the rate, at the phase q of the half p, from what the second upsampler gave there.
fn quarter<'a>(
    state: CascadedOversampledVariableDelay4x,
    kernel: Kernel,
    table: &'a [f64],
    halfband: &'a [f64],
    up2: &'a [f64],
    raised: f64,
    down2: &mut [f64],
    ring: &mut [f64],
    from: f64,
    delay: f64,
    inner: u64,
    p: u64,
    q: usize,
) -> u64
    requires { (Ready state) × (p < 2) × (q < 2)
        × (raised ≡ output_of halfband.now up2.now (2 * state.accepted + p + 1) 2 q) }
    ensures value { result ≡
        (quarter_of (read_by kernel table.now) state halfband.now from delay p q
        up2.now (high_of inner down2.old ring.old)).inner }
    ensures down2_after { down2.new ≡
        (quarter_of (read_by kernel table.now) state halfband.now from delay p q
        up2.now (high_of inner down2.old ring.old)).down2 }
    ensures ring_after { ring.new ≡
        (quarter_of (read_by kernel table.now) state halfband.now from delay p q
        up2.now (high_of inner down2.old ring.old)).ring }
{
    let k = 2 * p + q as u64;
    let y = high_delay::high_delay(from, delay, k + 1, 4);
    let s = inner_reader::step(
        VariableDelay {
            maximum: 4 * state.maximum,
            margin: state.margin,
            accepted: inner,
        },
        kernel,
        table,
        &mut ring[..],
        raised * 2.0,
        y,
    );
    fir_filter::push(&mut down2[..], 4 * state.accepted + k, s.sample);
    s.accepted
}

// One half: a sample at twice the rate goes into the second upsampler, which gives two at four times it. What they
// become goes down to one sample at twice the rate.
fn half<'a>(
    state: CascadedOversampledVariableDelay4x,
    kernel: Kernel,
    table: &'a [f64],
    halfband: &'a [f64],
    up1: &'a [f64],
    raised: f64,
    up2: &mut [f64],
    down2: &mut [f64],
    down1: &mut [f64],
    ring: &mut [f64],
    from: f64,
    delay: f64,
    inner: u64,
    p: usize,
) -> u64
    requires { (Ready state) × (p < 2)
        × (raised ≡ output_of halfband.now up1.now (state.accepted + 1) 2 p) }
    ensures value { result ≡
        (half_of (turn_of (read_by kernel table.now) state halfband.now up1.now from delay)
        p (record {
          inner = inner;
          up2 = up2.old;
          down2 = down2.old;
          down1 = down1.old;
          ring = ring.old;
        })).inner }
    ensures up2_after { up2.new ≡
        (half_of (turn_of (read_by kernel table.now) state halfband.now up1.now from delay)
        p (record {
          inner = inner;
          up2 = up2.old;
          down2 = down2.old;
          down1 = down1.old;
          ring = ring.old;
        })).up2 }
    ensures down2_after { down2.new ≡
        (half_of (turn_of (read_by kernel table.now) state halfband.now up1.now from delay)
        p (record {
          inner = inner;
          up2 = up2.old;
          down2 = down2.old;
          down1 = down1.old;
          ring = ring.old;
        })).down2 }
    ensures down1_after { down1.new ≡
        (half_of (turn_of (read_by kernel table.now) state halfband.now up1.now from delay)
        p (record {
          inner = inner;
          up2 = up2.old;
          down2 = down2.old;
          down1 = down1.old;
          ring = ring.old;
        })).down1 }
    ensures ring_after { ring.new ≡
        (half_of (turn_of (read_by kernel table.now) state halfband.now up1.now from delay)
        p (record {
          inner = inner;
          up2 = up2.old;
          down2 = down2.old;
          down1 = down1.old;
          ring = ring.old;
        })).ring }
{
    let at = p as u64;
    let twice = 2 * state.accepted + at;
    fir_filter::push(&mut up2[..], twice, raised * 2.0);
    let two = fir_filter::outputs(halfband, &up2[..], twice + 1, 2, 0);
    let first = quarter(
        state,
        kernel,
        table,
        halfband,
        &up2[..],
        two.first,
        &mut down2[..],
        &mut ring[..],
        from,
        delay,
        inner,
        at,
        0,
    );
    let second = quarter(
        state,
        kernel,
        table,
        halfband,
        &up2[..],
        two.second,
        &mut down2[..],
        &mut ring[..],
        from,
        delay,
        first,
        at,
        1,
    );
    let lowered = fir_filter::output(halfband, &down2[..], 4 * state.accepted + 2 * at + 2, 1, 0);
    fir_filter::push(&mut down1[..], twice, lowered);
    second
}

// Both halves of a call.
pub(crate) fn both_halves<'a>(
    state: CascadedOversampledVariableDelay4x,
    kernel: Kernel,
    table: &'a [f64],
    halfband: &'a [f64],
    up1: &'a [f64],
    up2: &mut [f64],
    down2: &mut [f64],
    down1: &mut [f64],
    ring: &mut [f64],
    from: f64,
    delay: f64,
) -> u64
    requires { Ready state }
    ensures value { result ≡
        (both_of (turn_of (read_by kernel table.now) state halfband.now up1.now from delay)
        (record {
          inner = state.inner;
          up2 = up2.old;
          down2 = down2.old;
          down1 = down1.old;
          ring = ring.old;
        })).inner }
    ensures up2_after { up2.new ≡
        (both_of (turn_of (read_by kernel table.now) state halfband.now up1.now from delay)
        (record {
          inner = state.inner;
          up2 = up2.old;
          down2 = down2.old;
          down1 = down1.old;
          ring = ring.old;
        })).up2 }
    ensures down2_after { down2.new ≡
        (both_of (turn_of (read_by kernel table.now) state halfband.now up1.now from delay)
        (record {
          inner = state.inner;
          up2 = up2.old;
          down2 = down2.old;
          down1 = down1.old;
          ring = ring.old;
        })).down2 }
    ensures down1_after { down1.new ≡
        (both_of (turn_of (read_by kernel table.now) state halfband.now up1.now from delay)
        (record {
          inner = state.inner;
          up2 = up2.old;
          down2 = down2.old;
          down1 = down1.old;
          ring = ring.old;
        })).down1 }
    ensures ring_after { ring.new ≡
        (both_of (turn_of (read_by kernel table.now) state halfband.now up1.now from delay)
        (record {
          inner = state.inner;
          up2 = up2.old;
          down2 = down2.old;
          down1 = down1.old;
          ring = ring.old;
        })).ring }
{
    let two = fir_filter::outputs(halfband, up1, state.accepted + 1, 2, 0);
    let first = half(
        state,
        kernel,
        table,
        halfband,
        up1,
        two.first,
        &mut up2[..],
        &mut down2[..],
        &mut down1[..],
        &mut ring[..],
        from,
        delay,
        state.inner,
        0,
    );
    half(
        state,
        kernel,
        table,
        halfband,
        up1,
        two.second,
        &mut up2[..],
        &mut down2[..],
        &mut down1[..],
        &mut ring[..],
        from,
        delay,
        first,
        1,
    )
}
