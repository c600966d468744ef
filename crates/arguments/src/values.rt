// What a value says where it is a word, or where a word can stand in a number's place.
ghost use Rattle.std.specs.Prelude.{◌≡◌};
ghost use Rattle.text.specs.Text.{ascii};
ghost use Rattle.spelling.specs.Words.{same_bytes};
ghost use Rattle.decimals.specs.Reading.{whole_in};
ghost use Rattle.arguments.specs.Meaning.{as_kind, as_frames, as_channel, as_picture};

use crate::{Argument, Name};
use decimals::read_u64;
use sample_kind::SampleKind;
use spelling::same;

#[tactic(auto, unfolding(text::specs::Text::ascii))]
pub(crate) fn as_kind(word: &[u8]) -> Argument
    ensures { result ≡ as_kind word.now }
{
    if same(word, b"same") {
        return Argument::Kind(None);
    }
    if same(word, b"pcm16") {
        return Argument::Kind(Some(SampleKind::Pcm16));
    }
    if same(word, b"pcm24") {
        return Argument::Kind(Some(SampleKind::Pcm24));
    }
    if same(word, b"float32") {
        return Argument::Kind(Some(SampleKind::Float32));
    }
    Argument::Bad(Name::Kind)
}

#[tactic(auto, unfolding(text::specs::Text::ascii))]
pub(crate) fn as_frames(word: &[u8]) -> Argument
    ensures { result ≡ as_frames (same_bytes word.now (ascii "all")) (whole_in word.now) }
{
    if same(word, b"all") {
        return Argument::Frames(None);
    }
    match read_u64(word) {
        Some(n) => Argument::Frames(Some(n)),
        None => Argument::Bad(Name::Frames),
    }
}

// Channels are counted from 1 wherever a person reads or writes them.
#[tactic(auto, unfolding(text::specs::Text::ascii))]
pub(crate) fn as_channel(word: &[u8]) -> Argument
    ensures { result ≡ as_channel word.now }
{
    if same(word, b"1") {
        return Argument::Channel(Some(1));
    }
    if same(word, b"2") {
        return Argument::Channel(Some(2));
    }
    if same(word, b"all") {
        return Argument::Channel(None);
    }
    Argument::Bad(Name::Channel)
}

// The name of a file is not empty.
pub(crate) fn as_picture(length: usize) -> Argument
    ensures { result ≡ as_picture length }
{
    if length == 0 {
        return Argument::Bad(Name::Picture);
    }
    Argument::Picture
}
