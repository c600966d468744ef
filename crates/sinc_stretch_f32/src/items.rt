// The items of a stretch: one, and two neighbours, whose readings are made at once where they can be.
ghost use Rattle.std.specs.Prelude.{◌≡◌, ◌+◌};
ghost use Rattle.sinc_read_f32.specs.Reading.{read_of};
ghost use Rattle.stretch_call.specs.Items.{item_due};
ghost use Rattle.sinc_stretch_f32.specs.Items.{Served, Neighbours};

use bit_patterns::one_nan_f32;
use fused_chain::Pair;
use sinc_neighbours::{apart, read_neighbours};
use sinc_read_f32::read;

// What an item gives: the number of its refusal, 0 for none, and its sample, 0.0 if it is refused.
#[derive(Drop)]
pub(crate) struct Item {
    pub(crate) refusal: u8,
    pub(crate) sample: f32,
}

// What two items give. If the first is refused, the second is not looked at.
#[derive(Drop)]
pub(crate) struct Two {
    pub(crate) first: u8,
    pub(crate) second: u8,
    pub(crate) a: f32,
    pub(crate) b: f32,
}

// A sample leaves as a float, so here a NaN gets its one pattern (O3).
fn heard<'a>(
    table: &'a [f32],
    taps: usize,
    phases: usize,
    source: &'a [f32],
    count: u64,
    position: f64,
) -> f32
    ensures { result ≡ read_of table.now taps phases source.now count position }
{
    let y = read(table, taps, phases, source, count, position);
    one_nan_f32(y)
}

fn both_heard<'a>(
    table: &'a [f32],
    taps: usize,
    phases: usize,
    source: &'a [f32],
    count: u64,
    position: f64,
    next_count: u64,
    next_position: f64,
) -> Pair
    ensures a_value { result.a ≡ read_of table.now taps phases source.now count position }
    ensures b_value { result.b ≡ read_of table.now taps phases source.now next_count
        next_position }
{
    let r = read_neighbours(
        table,
        taps,
        phases,
        source,
        count,
        position,
        next_count,
        next_position,
    );
    let a = one_nan_f32(r.a);
    let b = one_nan_f32(r.b);
    Pair { a: a, b: b }
}

// One item after i accepted samples.
pub(crate) fn served<'a>(
    i: u64,
    ring: &mut [f32],
    input: f32,
    delay: f64,
    table: &'a [f32],
    taps: usize,
    phases: usize,
) -> Item
    ensures { Served table.now taps phases i ring.old input delay result.refusal result.sample
        ring.new }
{
    let t = item_f32::take(i, &mut ring[..], input, delay);
    let no = t.refusal;
    if no != 0 {
        return Item {
            refusal: no,
            sample: 0.0,
        };
    }
    Item {
        refusal: 0,
        sample: heard(table, taps, phases, &ring[..], i + 1, t.position),
    }
}

// Two items after i accepted samples. If the first one's taps stay clear of the place that the second one's sample
// takes, both samples are stored before either is read, so that both readings can be made at once.
pub(crate) fn served_two<'a>(
    i: u64,
    ring: &mut [f32],
    input: f32,
    delay: f64,
    next_input: f32,
    next_delay: f64,
    table: &'a [f32],
    taps: usize,
    phases: usize,
) -> Two
    ensures { Neighbours table.now taps phases i ring.old input delay next_input
        next_delay result.first result.second result.a result.b ring.new }
{
    let t = item_f32::take(i, &mut ring[..], input, delay);
    let no = t.refusal;
    if no != 0 {
        return Two {
            first: no,
            second: 0,
            a: 0.0,
            b: 0.0,
        };
    }
    let j = i + 1;
    if !apart(ring.len(), j + 1, t.position, taps) {
        let a = heard(table, taps, phases, &ring[..], j, t.position);
        let s = served(
            j,
            &mut ring[..],
            next_input,
            next_delay,
            table,
            taps,
            phases,
        );
        return Two {
            first: 0,
            second: s.refusal,
            a: a,
            b: s.sample,
        };
    }
    let u = item_f32::take(j, &mut ring[..], next_input, next_delay);
    let next_no = u.refusal;
    if next_no != 0 {
        return Two {
            first: 0,
            second: next_no,
            a: heard(table, taps, phases, &ring[..], j, t.position),
            b: 0.0,
        };
    }
    let r = both_heard(
        table,
        taps,
        phases,
        &ring[..],
        j,
        t.position,
        j + 1,
        u.position,
    );
    Two {
        first: 0,
        second: 0,
        a: r.a,
        b: r.b,
    }
}
