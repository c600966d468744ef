// W12. Writes the samples of one channel into a lent slice and returns the refusal number, 0 for none.
ghost use Rattle.std.specs.Prelude.{◌≡◌, length};
ghost use Rattle.std.specs.Float.{binary32, binary64};
ghost use Rattle.sample_kind.specs.Kinds.{kind_of};
ghost use Rattle.wav_samples.specs.Filling.{whole_verdict};
ghost use Rattle.aiff_samples.specs.Samples.{filled, filled_whole};
ghost use Rattle.fugnadri_aiff.specs.Doors.{channels_of};

#[unsafe(no_mangle)]
pub extern "C" fn fugnadri_aiff_samples(
    kind: u8,
    channels: u8,
    channel: u8,
    part: &[u8],
    out: &mut [f64],
) -> u8
    ensures value { result ≡ whole_verdict (kind_of kind) (channels_of kind channels) channel
        (length part.now) (length out.old) }
    ensures out_after { out.new ≡ filled binary64 (kind_of kind) (channels_of kind channels) channel
        part.now (length out.old) out.old }
{
    fugnadri_aiff::samples::fugnadri_aiff_samples(kind, channels, channel, part, &mut out[..])
}

#[unsafe(no_mangle)]
pub extern "C" fn fugnadri_aiff_samples_f32(
    kind: u8,
    channels: u8,
    channel: u8,
    part: &[u8],
    out: &mut [f32],
) -> u8
    ensures value { result ≡ whole_verdict (kind_of kind) (channels_of kind channels) channel
        (length part.now) (length out.old) }
    ensures out_after { out.new ≡ filled binary32 (kind_of kind) (channels_of kind channels) channel
        part.now (length out.old) out.old }
{
    fugnadri_aiff::samples::fugnadri_aiff_samples_f32(kind, channels, channel, part, &mut out[..])
}

// The samples are whole numbers of 2^-23, as the residual takes them.
#[unsafe(no_mangle)]
pub extern "C" fn fugnadri_aiff_whole(
    kind: u8,
    channels: u8,
    channel: u8,
    part: &[u8],
    out: &mut [i32],
) -> u8
    ensures value { result ≡ whole_verdict (kind_of kind) (channels_of kind channels) channel
        (length part.now) (length out.old) }
    ensures out_after { out.new ≡ filled_whole (kind_of kind) (channels_of kind channels) channel
        part.now (length out.old) out.old }
{
    fugnadri_aiff::samples::fugnadri_aiff_whole(kind, channels, channel, part, &mut out[..])
}
