// W10. Reading a file of any length, RIFF, RF64 or BW64, from its first bytes: returns the refusal number, 0 for none,
// and writes what was found, zeros if refused. The caller passes the file's length as a number.
ghost use Rattle.std.specs.Prelude.{◌≡◌};
ghost use Rattle.long_wav.specs.Reading.{needs_of, header_in, header_wrapped};
ghost use Rattle.fugnadri_wav.specs.Exports.{leaves, left_by};

#[unsafe(no_mangle)]
pub extern "C" fn fugnadri_wav_read_header(
    prefix: &[u8],
    length: usize,
    kind: &mut u8,
    channels: &mut u8,
    rate: &mut u32,
    start: &mut usize,
    size: &mut usize,
) -> u8
    ensures { leaves result
        kind.new channels.new rate.new start.new size.new
        ≡ left_by (header_in prefix.now length) }
{
    fugnadri_wav::headers::fugnadri_wav_read_header(
        prefix, length, kind, channels, rate, start, size,
    )
}

// The same, except that a kind inside WAVE_FORMAT_EXTENSIBLE, tag FFFE, is read by the tag inside.
#[unsafe(no_mangle)]
pub extern "C" fn fugnadri_wav_read_header_wrapped(
    prefix: &[u8],
    length: usize,
    kind: &mut u8,
    channels: &mut u8,
    rate: &mut u32,
    start: &mut usize,
    size: &mut usize,
) -> u8
    ensures { leaves result
        kind.new channels.new rate.new start.new size.new
        ≡ left_by (header_wrapped prefix.now length) }
{
    fugnadri_wav::headers::fugnadri_wav_read_header_wrapped(
        prefix, length, kind, channels, rate, start, size,
    )
}

// How many of the file's first bytes the caller must lend after a refusal by 2, or 0 if enough are lent.
#[unsafe(no_mangle)]
pub extern "C" fn fugnadri_wav_needs(prefix: &[u8], length: usize) -> usize
    ensures { result ≡ needs_of prefix.now length }
{
    fugnadri_wav::headers::fugnadri_wav_needs(prefix, length)
}
