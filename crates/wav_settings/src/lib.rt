// W2. The tests of the rate, the channels and the number of samples of a WAV file that is to be written, for every
// input.
#![tactic(auto)]

ghost use Rattle.std.specs.Prelude.{◌≡◌};
ghost use Rattle.wav_settings.specs.Settings.{rate_ok, one_or_two, whole_frames};

use refusal_order::both;

pub fn rate_ok(rate: u32) -> bool
    ensures { result ≡ rate_ok rate }
{
    both(8000 <= rate, rate <= 768000)
}

pub fn one_or_two(channels: u8) -> bool
    ensures { result ≡ one_or_two channels }
{
    if channels == 1 { true } else { channels == 2 }
}

// One channel needs no test, because any number of samples is whole frames.
pub fn whole_frames(channels: u8, count: usize) -> bool
    ensures { result ≡ whole_frames channels count }
{
    if channels == 2 { count % 2 == 0 } else { true }
}
