// The names that a setting can have.
ghost use Rattle.std.specs.Prelude.{◌≡◌, MatchOption};
ghost use Rattle.arguments.specs.Names.{either, wander_or, name_in};
ghost use Rattle.arguments.specs.declared.Name.{Name as Name·};
ghost use Rattle.arguments.specs.declared.Name.TheVariants.{Setting as Setting·, FirstSkip, SecondSkip, Frames};
ghost use Rattle.arguments.specs.declared.Name.TheVariants.{Channel, Picture, Unknown};

use crate::{Name, Setting};
use spelling::same;

#[tactic(auto, unfolding(text::specs::Text::ascii))]
pub(crate) fn name_of(word: &[u8]) -> Name
    ensures { result ≡ name_in word.now }
{
    if same(word, b"seed") {
        return Name::Seed;
    }
    if same(word, b"delay") {
        return Name::Delay;
    }
    if same(word, b"kind") {
        return Name::Kind;
    }
    match setting_of(word) {
        Some(setting) => Name::Setting(setting),
        None => residual_name(word),
    }
}

// One of the eight settings of 001, if the word is its name.
#[tactic(auto, unfolding(text::specs::Text::ascii))]
fn setting_of(word: &[u8]) -> Option<Setting>
    ensures { (other : Name·) → MatchOption result (wander_or word.now other ≡ other)
        (λ s. wander_or word.now other ≡ Setting· s) }
{
    if same(word, b"wow_rate_hz") {
        return Some(Setting::WowRateHz);
    }
    if same(word, b"wow_depth_cents") {
        return Some(Setting::WowDepthCents);
    }
    if same(word, b"wow_shape") {
        return Some(Setting::WowShape);
    }
    if same(word, b"flutter_rate_hz") {
        return Some(Setting::FlutterRateHz);
    }
    if same(word, b"flutter_depth_cents") {
        return Some(Setting::FlutterDepthCents);
    }
    if same(word, b"flutter_shape") {
        return Some(Setting::FlutterShape);
    }
    if same(word, b"drift_amount") {
        return Some(Setting::DriftAmount);
    }
    if same(word, b"stereo_amount") {
        return Some(Setting::StereoAmount);
    }
    None
}

// One of the settings of `residual`.
#[tactic(auto, unfolding(text::specs::Text::ascii))]
fn residual_name(word: &[u8]) -> Name
    ensures { result ≡ either word.now "first-skip" FirstSkip (either word.now "second-skip" SecondSkip
        (either word.now "frames" Frames (either word.now "channel" Channel
        (either word.now "picture" Picture Unknown)))) }
{
    if same(word, b"first-skip") {
        return Name::FirstSkip;
    }
    if same(word, b"second-skip") {
        return Name::SecondSkip;
    }
    if same(word, b"frames") {
        return Name::Frames;
    }
    if same(word, b"channel") {
        return Name::Channel;
    }
    if same(word, b"picture") {
        return Name::Picture;
    }
    Name::Unknown
}
