// W1. Reading a whole file: returns the refusal number, 0 for none, and writes what was found, zeros if refused. What
// its `fmt ` says is handed out even if the file is refused, so that a caller can explain the refusal.
ghost use Rattle.std.specs.Prelude.{◌≡◌};
ghost use Rattle.wav.specs.Wave.{found_in, found_wrapped, told_in};
ghost use Rattle.fugnadri_wav.specs.Exports.{leaves, left_by, tells};

#[unsafe(no_mangle)]
pub extern "C" fn fugnadri_wav_read(
    file: &[u8],
    kind: &mut u8,
    channels: &mut u8,
    rate: &mut u32,
    start: &mut usize,
    size: &mut usize,
) -> u8
    ensures { leaves result
        kind.new channels.new rate.new start.new size.new
        ≡ left_by (found_in file.now) }
{
    fugnadri_wav::files::fugnadri_wav_read(file, kind, channels, rate, start, size)
}

// The same, except that a kind inside WAVE_FORMAT_EXTENSIBLE, tag FFFE, is read by the tag inside.
#[unsafe(no_mangle)]
pub extern "C" fn fugnadri_wav_read_wrapped(
    file: &[u8],
    kind: &mut u8,
    channels: &mut u8,
    rate: &mut u32,
    start: &mut usize,
    size: &mut usize,
) -> u8
    ensures { leaves result
        kind.new channels.new rate.new start.new size.new
        ≡ left_by (found_wrapped file.now) }
{
    fugnadri_wav::files::fugnadri_wav_read_wrapped(file, kind, channels, rate, start, size)
}

// Writes what `fmt ` says, and the size of `data`. Nothing is refused: the numbers of a chunk that is missing are
// zeros.
#[unsafe(no_mangle)]
pub extern "C" fn fugnadri_wav_told(
    file: &[u8],
    size: &mut usize,
    tag: &mut u32,
    channels: &mut u32,
    block: &mut u32,
    bits: &mut u32,
    samples: &mut usize,
)
    ensures { tells
        size.new tag.new channels.new block.new bits.new
        samples.new
        ≡ told_in file.now }
{
    fugnadri_wav::files::fugnadri_wav_told(file, size, tag, channels, block, bits, samples);
}
