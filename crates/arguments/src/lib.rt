// What an argument of a program means: a file's name, or a setting as NAME=VALUE. Whether a value is in the range of
// its setting is tested where it is used (refusal 1); here a value is refused only if it is not a number, or not one of
// the words that its name allows.
#![tactic(auto)]

ghost use Rattle.std.specs.Prelude.{◌≡◌, ◌+◌, ◌≤◌, min, length};
ghost use Rattle.spelling.specs.Words.{split_in};
ghost use Rattle.arguments.specs.Meaning.{valued_as, meaning_of};
ghost use Rattle.arguments.specs.Settings.{changed_to};

mod names; // which name an argument has
mod values; // what its value says, where that is a word

use decimals::{read_f64, read_u64};
use modulation_params::ModulationParams;
use sample_kind::SampleKind;
use spelling::{is_named, split};

// One of 001's eight settings, by the name that it has there.
#[derive(Clone, Copy)]
pub enum Setting {
    WowRateHz,
    WowDepthCents,
    WowShape,
    FlutterRateHz,
    FlutterDepthCents,
    FlutterShape,
    DriftAmount,
    StereoAmount,
}

#[derive(Clone, Copy)]
pub enum Name {
    Seed,
    Delay,
    Kind,
    Setting(Setting),
    FirstSkip,
    SecondSkip,
    Frames,
    Channel,
    Picture,
    Unknown,
}

// `Bad` is a known name with a value that it cannot have. What stands behind the `=` begins at `value_at`.
#[derive(Clone, Copy)]
pub enum Argument {
    File,
    Unknown,
    Bad(Name),
    Seed(u64),
    Delay(f64),
    Kind(Option<SampleKind>), // none for `kind=same`, which keeps the kind of the file that is read
    Setting(Setting, f64),
    FirstSkip(u64),
    SecondSkip(u64),
    Frames(Option<u64>), // none for `frames=all`
    Channel(Option<u8>), // counted from 1, and none for `channel=all`
    Picture,
}

pub fn meaning(text: &[u8]) -> Argument
    ensures { result ≡ meaning_of text.now }
{
    if is_named(text) {
        let at = split(text);
        let from = value_at(text);
        let name = names::name_of(&text[..at]);
        return valued(name, &text[from..]);
    }
    Argument::File
}

fn valued(name: Name, value: &[u8]) -> Argument
    ensures { result ≡ valued_as name value.now }
{
    let bad = Argument::Bad(name);
    match name {
        Name::Seed => read_u64(value).map_or(bad, Argument::Seed),
        Name::Delay => read_f64(value).map_or(bad, Argument::Delay),
        Name::Kind => values::as_kind(value),
        Name::Setting(s) => read_f64(value).map_or(bad, |x| Argument::Setting(s, x)),
        Name::FirstSkip => read_u64(value).map_or(bad, Argument::FirstSkip),
        Name::SecondSkip => read_u64(value).map_or(bad, Argument::SecondSkip),
        Name::Frames => values::as_frames(value),
        Name::Channel => values::as_channel(value),
        Name::Picture => values::as_picture(value.len()),
        Name::Unknown => Argument::Unknown,
    }
}

// The place where the value of NAME=VALUE begins.
pub fn value_at(text: &[u8]) -> usize
    ensures value { result ≡ min (split_in text.now + 1) (length text.now) }
    ensures upper_bound { result ≤ length text.now }
{
    let at = split(text);
    if at < text.len() { at + 1 } else { text.len() }
}

// The settings of 001 with one of them changed.
pub fn with_setting(params: ModulationParams, setting: Setting, value: f64) -> ModulationParams
    ensures { result ≡ changed_to params setting value }
{
    let mut p = params;
    match setting {
        Setting::WowRateHz => p.wow_rate_hz = value,
        Setting::WowDepthCents => p.wow_depth_cents = value,
        Setting::WowShape => p.wow_shape = value,
        Setting::FlutterRateHz => p.flutter_rate_hz = value,
        Setting::FlutterDepthCents => p.flutter_depth_cents = value,
        Setting::FlutterShape => p.flutter_shape = value,
        Setting::DriftAmount => p.drift_amount = value,
        Setting::StereoAmount => p.stereo_amount = value,
    }
    p
}
