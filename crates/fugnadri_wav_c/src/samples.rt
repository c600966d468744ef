// W1. One channel's samples written to a lent slice. Each function returns the refusal number, 0 for none.
ghost use Rattle.std.specs.Prelude.{◌≡◌, length};
ghost use Rattle.std.specs.Float.{binary32, binary64};
ghost use Rattle.wav_samples.specs.Filling.{verdict, filled, whole_verdict, filled_whole};
ghost use Rattle.sample_kind.specs.Kinds.{kind_of};
ghost use Rattle.fugnadri_wav.specs.Exports.{channels_of};

#[unsafe(no_mangle)]
pub extern "C" fn fugnadri_wav_samples(
    kind: u8,
    channels: u8,
    channel: u8,
    part: &[u8],
    out: &mut [f64],
) -> u8
    ensures value { result ≡ verdict (kind_of kind) (channels_of kind channels) channel
        (length part.now) (length out.old) }
    ensures out_after { out.new ≡ filled binary64 (kind_of kind) (channels_of kind channels) channel
        part.now (length out.old) out.old }
{
    fugnadri_wav::samples::fugnadri_wav_samples(kind, channels, channel, part, &mut out[..])
}

#[unsafe(no_mangle)]
pub extern "C" fn fugnadri_wav_samples_f32(
    kind: u8,
    channels: u8,
    channel: u8,
    part: &[u8],
    out: &mut [f32],
) -> u8
    ensures value { result ≡ verdict (kind_of kind) (channels_of kind channels) channel
        (length part.now) (length out.old) }
    ensures out_after { out.new ≡ filled binary32 (kind_of kind) (channels_of kind channels) channel
        part.now (length out.old) out.old }
{
    fugnadri_wav::samples::fugnadri_wav_samples_f32(kind, channels, channel, part, &mut out[..])
}

// The unit is 2^-23, which the residual takes. A float kind is refused by 1.
#[unsafe(no_mangle)]
pub extern "C" fn fugnadri_wav_whole(
    kind: u8,
    channels: u8,
    channel: u8,
    part: &[u8],
    out: &mut [i32],
) -> u8
    ensures value { result ≡ whole_verdict (kind_of kind) (channels_of kind channels) channel
        (length part.now) (length out.old) }
    ensures out_after { out.new ≡ filled_whole (kind_of kind) (channels_of kind channels) channel
        part.now (length out.old) out.old }
{
    fugnadri_wav::samples::fugnadri_wav_whole(kind, channels, channel, part, &mut out[..])
}
