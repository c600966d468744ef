// What a program was asked for: its settings, which take in one argument after the other. A setting that is given twice
// has the later value.
#![tactic(auto)]

ghost use Rattle.std.specs.Prelude.{◌≡◌};
ghost use Rattle.asked.specs.Asked.{plain_imitation, imitated_with, plain_comparison, compared_with};

use arguments::Argument;
use modulation_params::ModulationParams;
use sample_kind::SampleKind;

// The settings of `imitate`.
#[derive(Clone, Copy)]
pub struct Imitation {
    pub seed: u64,
    pub delay: f64,
    pub kind: Option<SampleKind>, // none for the kind of the file that is read
    pub params: ModulationParams,
}

// Without arguments `imitate` does what `render` does, and keeps the kind of the file that is read.
pub fn plain_imitation() -> Imitation
    ensures { result ≡ plain_imitation }
{
    let params = modulation_params::default_params();
    Imitation {
        seed: 1,
        delay: 512.0,
        kind: None,
        params,
    }
}

// The settings with one more argument, unless it is not one of the program's.
pub fn imitated_with(old: Imitation, argument: Argument) -> Option<Imitation>
    ensures { result ≡ imitated_with old argument }
{
    match argument {
        Argument::Seed(seed) => Some(Imitation { seed, ..old }),
        Argument::Delay(delay) => Some(Imitation { delay, ..old }),
        Argument::Kind(kind) => Some(Imitation { kind, ..old }),
        Argument::Setting(s, x) => {
            let params = arguments::with_setting(old.params, s, x);
            Some(Imitation { params, ..old })
        }
        Argument::File
        | Argument::Unknown
        | Argument::Bad(_)
        | Argument::FirstSkip(_)
        | Argument::SecondSkip(_)
        | Argument::Frames(_)
        | Argument::Channel(_)
        | Argument::Picture => None,
    }
}

// The settings of `residual`. The program itself keeps where the name of the picture stands.
#[derive(Clone, Copy)]
pub struct Comparison {
    pub first_skip: u64,
    pub second_skip: u64,
    pub frames: Option<u64>, // none for all
    pub channel: Option<u8>, // none for all
    pub picture: bool,
}

// Without arguments `residual` compares all frames of all channels and draws no picture.
pub fn plain_comparison() -> Comparison
    ensures { result ≡ plain_comparison }
{
    Comparison {
        first_skip: 0,
        second_skip: 0,
        frames: None,
        channel: None,
        picture: false,
    }
}

pub fn compared_with(old: Comparison, argument: Argument) -> Option<Comparison>
    ensures { result ≡ compared_with old argument }
{
    match argument {
        Argument::FirstSkip(first_skip) => Some(Comparison { first_skip, ..old }),
        Argument::SecondSkip(second_skip) => Some(Comparison { second_skip, ..old }),
        Argument::Frames(frames) => Some(Comparison { frames, ..old }),
        Argument::Channel(channel) => Some(Comparison { channel, ..old }),
        Argument::Picture => Some(Comparison {
            picture: true,
            ..old
        }),
        Argument::File
        | Argument::Unknown
        | Argument::Bad(_)
        | Argument::Seed(_)
        | Argument::Delay(_)
        | Argument::Kind(_)
        | Argument::Setting(_, _) => None,
    }
}
