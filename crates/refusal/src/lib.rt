// The refusals of document 01 and of the wishes, and the number of each (N1 to N8).
#![tactic(auto)]

ghost use Rattle.std.specs.Prelude.{◌≡◌};
ghost use Rattle.refusal.specs.Numbers.{number_of, refusal_of};

// What is refused, in the order of the numbers, which is that in which the tests are read (N9). README.md says what to
// do about each.
#[derive(Clone, Copy, Debug, PartialEq, Eq)]
pub enum Refusal {
    Setting = 1, // a setting or an argument is outside its range
    Length = 2, // what is lent has not the length that its settings need
    State = 3, // a field of a state is outside its range
    Sample = 4, // the sample is NaN or infinite
    Delay = 5, // the delay is NaN, infinite or below zero
    LongDelay = 6, // the delay is above 2^36 samples
    Rate = 7, // the playback rate is NaN
    Full = 8, // 2^36 samples are accepted already
    NotWav = 9, // no RIFF WAVE file
    CutOff = 10, // a chunk runs past the end
    NoFormat = 11, // no `fmt ` before the first `data`
    NoData = 12, // no `data`
    Kind = 13, // the samples' kind is not read
    ShortBuffer = 14, // the buffer is shorter than what is to be written
    Misfit = 15, // a sample does not fit the kind in which it is to be written
    NoSlot = 16, // every slot of the room is held
    NotHeld = 17, // the desk gives up a set that it does not hold
    NoSizes = 18, // the `ds64` is missing or not first
    LongFile = 19, // a size is above 2^40 bytes
    NotAiff = 20, // no AIFF file
    NoFrames = 21, // `COMM` or `SSND` is missing, or frames are
    AiffRate = 22, // the rate is no whole number from 8000 to 768000
}

impl Refusal {
    // The number of document 01.
    pub fn number(self) -> u8
        ensures { result ≡ number_of self }
    {
        self as u8
    }
}

// C4. The number of an answer: that of its refusal, 0 where there is none.
pub fn number_of<T>(answer: &Result<T, Refusal>) -> u8
    ensures { result ≡ refusal_of answer.now }
{
    match answer {
        Ok(_) => 0,
        Err(refusal) => refusal.number(),
    }
}
