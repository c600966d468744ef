// The samples of one channel, each read at its delay, in place.
ghost use Rattle.std.specs.Prelude.{◌≡◌};
ghost use Rattle.imitation.specs.Reading.{call_of, heard, ended_of, left_in};

use variable_delay::VariableDelay;

// The reader after a stretch, how many samples were read, and the number of the refusal that ended it, 0 for none.
#[derive(Clone, Copy)]
pub struct Ended {
    pub reader: VariableDelay,
    pub done: usize,
    pub refusal: u8,
}

// The answer of a call as plain numbers.
#[derive(Clone, Copy)]
struct Heard {
    state: VariableDelay,
    number: u8,
    sample: f32,
}

// Replaces the samples by what is read, for as many as there are delays, up to the first that is refused. That one and
// those behind it stay.
pub fn read_stretch<'a>(
    reader: VariableDelay,
    ring: &mut [f32],
    table: &'a [f32],
    samples: &mut [f32],
    delays: &[f64],
) -> Ended
    ensures value { result ≡ ended_of (heard table.now reader ring.old samples.old
        delays.now) }
    ensures ring_after { ring.new ≡ (heard table.now reader ring.old samples.old
        delays.now).ring }
    ensures samples_after { samples.new ≡ left_in samples.old (heard table.now reader
        ring.old samples.old delays.now) }
{
    let n = samples.len().min(delays.len());
    let mut s = reader;
    for k in 0..n {
        let c = hear(s, ring, table, samples[k], delays[k]);
        s = c.state;
        if c.number != 0 {
            return Ended {
                reader: s,
                done: k,
                refusal: c.number,
            };
        }
        samples[k] = c.sample;
    }
    Ended {
        reader: s,
        done: n,
        refusal: 0,
    }
}

fn hear<'a>(
    state: VariableDelay,
    ring: &mut [f32],
    table: &'a [f32],
    input: f32,
    delay: f64,
) -> Heard
    ensures state_value { result.state ≡ (call_of table.now state ring.old input delay).state }
    ensures number_value { result.number ≡ (call_of table.now state ring.old input delay).number }
    ensures sample_value { result.sample ≡ (call_of table.now state ring.old input delay).sample }
    ensures ring_after { ring.new ≡ (call_of table.now state ring.old input delay).ring }
{
    let p = sinc_delay_f32::process_sample(state, ring, input, delay, table, 32, 64);
    Heard {
        state: p.state,
        number: answer_parts::number_f32(p.answer),
        sample: answer_parts::value_f32(p.answer),
    }
}
