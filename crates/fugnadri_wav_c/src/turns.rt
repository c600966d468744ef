// W10c. Reading step by step, for files that are too long to be held. The state of a walk is six numbers: the bytes
// that are left before its end, whether a chunk ran past the end, and the place and the size of the first `fmt ` and of
// the first `data`, zeros if none was seen. Before the first step the last five are 0.
ghost use Rattle.std.specs.Prelude.{◌≡◌};
ghost use Rattle.wav_opening.specs.Opening.{begun_of};
ghost use Rattle.wav_turns.specs.Turns.{finished_of};
ghost use Rattle.fugnadri_wav.specs.Exports.{leaves, left_by};
ghost use Rattle.fugnadri_wav.specs.Walk.{begins, begins_by, walk, seen_from, walk_after};

// Refuses by 1, 2, 9, 18, 19, or 10 for the RIFF's size; otherwise writes the end of the walk and the bytes that are
// left before it.
#[unsafe(no_mangle)]
pub extern "C" fn fugnadri_wav_begin(
    opening: &[u8],
    length: usize,
    end: &mut usize,
    left: &mut usize,
) -> u8
    ensures { begins result end.new left.new
        ≡ begins_by (begun_of opening.now length) }
{
    fugnadri_wav::turns::fugnadri_wav_begin(opening, length, end, left)
}

// One more chunk, from the 8 bytes at the place `end` less what is left. If fewer than 8 are left the walk is over.
#[unsafe(no_mangle)]
pub extern "C" fn fugnadri_wav_turn(
    opening: &[u8],
    end: usize,
    head: &[u8],
    left: &mut usize,
    overruns: &mut u8,
    format: &mut usize,
    format_size: &mut usize,
    samples: &mut usize,
    samples_size: &mut usize,
)
    ensures { walk left.new overruns.new
        format.new format_size.new samples.new samples_size.new
        ≡ walk_after opening.now end head.now
        (walk left.old overruns.old
        format.old format_size.old samples.old samples_size.old) }
{
    fugnadri_wav::turns::fugnadri_wav_turn(
        opening,
        end,
        head,
        left,
        overruns,
        format,
        format_size,
        samples,
        samples_size,
    );
}

// Refuses by 10 to 13, or writes what was found. `fmt` is the first 40 bytes of `fmt `, or all of it if it is shorter.
#[unsafe(no_mangle)]
pub extern "C" fn fugnadri_wav_finish(
    overruns: u8,
    format: usize,
    format_size: usize,
    samples: usize,
    samples_size: usize,
    fmt: &[u8],
    kind: &mut u8,
    channels: &mut u8,
    rate: &mut u32,
    start: &mut usize,
    size: &mut usize,
) -> u8
    ensures { leaves result
        kind.new channels.new rate.new start.new size.new
        ≡ left_by (finished_of (seen_from overruns format format_size samples samples_size) fmt.now) }
{
    fugnadri_wav::turns::fugnadri_wav_finish(
        overruns,
        format,
        format_size,
        samples,
        samples_size,
        fmt,
        kind,
        channels,
        rate,
        start,
        size,
    )
}
