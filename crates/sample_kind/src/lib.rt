// The kinds of a stored sample, how many bytes each has, and its code at the C boundary (W1).
#![tactic(auto)]

ghost use Rattle.std.specs.Prelude.{◌≡◌};
ghost use Rattle.sample_kind.specs.Kinds.{width_of, frame_of, code_of, kind_of};

// PCM of 16 and of 24 bits, and IEEE float of 32.
#[derive(Clone, Copy)]
pub enum SampleKind {
    Pcm16,
    Pcm24,
    Float32,
}

// How many bytes one sample has.
pub fn width(kind: SampleKind) -> usize
    ensures { result ≡ width_of kind }
{
    match kind {
        SampleKind::Pcm16 => 2,
        SampleKind::Pcm24 => 3,
        SampleKind::Float32 => 4,
    }
}

// How many bytes a frame has, which is one sample of each channel.
pub fn frame_width(kind: SampleKind, channels: u8) -> usize
    ensures { result ≡ frame_of kind channels }
{
    channels as usize * width(kind)
}

pub fn code(kind: SampleKind) -> u8
    ensures { result ≡ code_of kind }
{
    kind as u8
}

// The kind with a code. A code above 2 is no kind's; whoever takes codes from outside tests that before.
pub fn of_code(code: u8) -> SampleKind
    ensures { result ≡ kind_of code }
{
    match code {
        0 => SampleKind::Pcm16,
        1 => SampleKind::Pcm24,
        _ => SampleKind::Float32,
    }
}
