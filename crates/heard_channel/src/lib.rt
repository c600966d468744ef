// What a channel of a WAVE file's part becomes: its samples, each read back at its delay.
#![tactic(auto)]

ghost use Rattle.std.specs.Prelude.{◌≡◌};
ghost use Rattle.imitation.specs.Reading.{ended_of, left_in};
ghost use Rattle.heard_channel.specs.Heard.{samples_in, heard_in};

use imitation::Ended;
use sample_kind::SampleKind;
use variable_delay::VariableDelay;
use wav_samples::filling::fill_f32;

// Fills `samples`, which has a place for each frame of the part, and reads each sample back at its delay, up to the
// first that is refused.
pub fn hear<'a>(
    kind: SampleKind,
    channels: u8,
    channel: u8,
    part: &[u8],
    reader: VariableDelay,
    ring: &mut [f32],
    table: &'a [f32],
    samples: &mut [f32],
    delays: &[f64],
) -> Ended
    ensures value { result ≡ ended_of (heard_in table.now reader ring.old
        (samples_in kind channels channel part.now samples.old) delays.now) }
    ensures ring_after { ring.new ≡ (heard_in table.now reader ring.old
        (samples_in kind channels channel part.now samples.old) delays.now).ring }
    ensures samples_after { samples.new
        ≡ left_in (samples_in kind channels channel part.now samples.old)
        (heard_in table.now reader ring.old
        (samples_in kind channels channel part.now samples.old) delays.now) }
{
    fill_f32(kind, channels, channel, part, samples);
    imitation::read_stretch(reader, ring, table, samples, delays)
}
