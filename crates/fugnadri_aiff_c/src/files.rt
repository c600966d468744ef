// W12. Reading a file returns the refusal number, 0 for none, and writes what was found, zeros if it is refused. A
// second export gives what its `COMM` and its `SSND` say, refused or not, to a caller that explains a refusal.
ghost use Rattle.std.specs.Prelude.{◌≡◌};
ghost use Rattle.aiff.specs.Aiff.{found_in, told_in};
ghost use Rattle.fugnadri_aiff.specs.Doors.{leaves, left_by, tells};

#[unsafe(no_mangle)]
pub extern "C" fn fugnadri_aiff_read(
    file: &[u8],
    kind: &mut u8,
    channels: &mut u8,
    rate: &mut u32,
    start: &mut usize,
    size: &mut usize,
) -> u8
    ensures { leaves result
        kind.new channels.new rate.new start.new size.new
        ≡ left_by (found_in file.now) }
{
    fugnadri_aiff::files::fugnadri_aiff_read(file, kind, channels, rate, start, size)
}

// Nothing is refused: what is missing gives zeros.
#[unsafe(no_mangle)]
pub extern "C" fn fugnadri_aiff_told(
    file: &[u8],
    comm: &mut usize,
    channels: &mut u32,
    frames: &mut u32,
    bits: &mut u32,
    exponent: &mut u32,
    digits: &mut u64,
    ssnd: &mut usize,
    offset: &mut u32,
)
    ensures { tells
        comm.new channels.new frames.new bits.new exponent.new
        digits.new ssnd.new offset.new
        ≡ told_in file.now }
{
    fugnadri_aiff::files::fugnadri_aiff_told(
        file, comm, channels, frames, bits, exponent, digits, ssnd, offset,
    );
}
