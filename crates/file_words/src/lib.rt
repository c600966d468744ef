// Why a file cannot be used, or not as it is, in words that say what to do: lines on standard error that begin with the
// command. Each call gives the number of bytes of its line.
#![tactic(auto)]

ghost use Rattle.std.specs.Prelude.{◌≡◌, cond};
ghost use Rattle.text.specs.Text.{place_after};
ghost use Rattle.file_words.specs.Lines.{unread_said, wrapped_line, place_line, differ_line};
ghost use Rattle.file_words.specs.Unopened.{refused_line, unopened_said};

mod lines; // the lines, put into a slice

use error_lines::{say, say_failed, say_of};
use sample_kind::SampleKind;
use sizes::begun;
use system::System;
use wave_file::{Opened, Refused, WaveFile};

// Says why a file was not opened.
pub fn say_unopened(system: &System, command: &[u8], name: &[u8], opened: Opened) -> usize
    ensures { result ≡ unopened_said command.now name.now opened }
{
    match opened {
        Opened::File(_) => 0,
        Opened::Unread => say_failed(system, command, name),
        Opened::Empty => say_of(
            system,
            command,
            name,
            b" is empty: copy it again from where it came\n",
        ),
        Opened::Shorter => say_of(
            system,
            command,
            name,
            b" became shorter while it was read\n",
        ),
        Opened::Refused(refused) => say_refused(system, command, name, refused),
    }
}

// The line has room for a name of 4096 bytes, which it shows twice.
fn say_refused(system: &System, command: &[u8], name: &[u8], refused: Refused) -> usize
    ensures { result ≡ place_after 9216 0 (refused_line command.now name.now refused) }
{
    let mut line = [0u8; 9216];
    let n = lines::put_refused(&mut line, 0, command, name, refused);
    say(system, begun(&line, n));
    n
}

// Says why `read_at` did not fill its slice.
pub fn say_unread(system: &System, command: &[u8], name: &[u8], number: u8) -> usize
    ensures { result ≡ unread_said command.now name.now number }
{
    if number == 1 {
        return say_failed(system, command, name);
    }
    say_of(
        system,
        command,
        name,
        b" became shorter while it was read\n",
    )
}

fn say_kind(system: &System, command: &[u8], name: &[u8], kind: SampleKind) -> usize
    ensures { result ≡ place_after 9216 0 (wrapped_line command.now name.now kind) }
{
    let mut line = [0u8; 9216];
    let n = lines::put_wrapped(&mut line, 0, command, name, kind);
    say(system, begun(&line, n));
    n
}

// Says that a file's kind stood inside WAVE_FORMAT_EXTENSIBLE, if it did.
pub fn say_wrapped(system: &System, command: &[u8], name: &[u8], file: WaveFile) -> usize
    ensures { result ≡ cond file.wrapped
        (place_after 9216 0 (wrapped_line command.now name.now file.kind)) 0 }
{
    let kind = file.kind;
    if file.wrapped {
        return say_kind(system, command, name, kind);
    }
    0
}

// Says why one sample is refused, by its frame, counted from 0, and its channel, counted from 1.
pub fn say_place(
    system: &System,
    command: &[u8],
    name: &[u8],
    number: u8,
    frame: usize,
    channel: u8,
    words: &[u8],
) -> usize
    ensures { result ≡ place_after 9216 0
        (place_line command.now name.now number frame channel words.now) }
{
    let mut line = [0u8; 9216];
    let n = lines::put_place(&mut line, 0, command, name, number, frame, channel, words);
    say(system, begun(&line, n));
    n
}

// Says that of something the first file has a and the second b.
pub fn say_differ(
    system: &System,
    command: &[u8],
    first: &[u8],
    second: &[u8],
    a: u32,
    b: u32,
    words: &[u8],
) -> usize
    ensures { result ≡ place_after 9216 0
        (differ_line command.now first.now second.now a b words.now) }
{
    let mut line = [0u8; 9216];
    let n = lines::put_differ(&mut line, 0, command, first, second, a, b, words);
    say(system, begun(&line, n));
    n
}
