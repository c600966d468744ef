// The lines about an argument that cannot be used. Each call gives the number of bytes of its line.
ghost use Rattle.std.specs.Prelude.{◌≡◌, length};
ghost use Rattle.text.specs.Text.{ascii, put_at, place_after};
ghost use Rattle.error_lines.specs.Lines.{line_text, plain_text};
ghost use Rattle.words_asked.specs.Words.{unknown_text, bad_text, unknown_line, bad_line};

use arguments::Name;
use error_lines::{put_start, say, say_of, say_plain};
use sizes::begun;
use system::System;
use text::put;

fn put_unknown(out: &mut [u8], at: usize, words: &[u8]) -> usize
    ensures value { result ≡ place_after (length out.old) at (unknown_text words.now) }
    ensures out_after { out.new ≡ put_at out.old at (unknown_text words.now) }
{
    let one = put(
        out,
        at,
        b" is no setting that it knows (./run --help lists them); for a file of that name write ./",
    );
    let two = put(out, one, words);
    put(out, two, b"\n")
}

fn put_bad(out: &mut [u8], at: usize, name: Name) -> usize
    ensures value { result ≡ place_after (length out.old) at (bad_text name) }
    ensures out_after { out.new ≡ put_at out.old at (bad_text name) }
{
    let one = put(out, at, b" will not do: ");
    let two = wanted::put_wanted(out, one, name);
    put(out, two, b"\n")
}

fn put_unknown_line(out: &mut [u8], at: usize, command: &[u8], words: &[u8]) -> usize
    ensures value { result ≡ place_after (length out.old) at
        (unknown_line command.now words.now) }
    ensures out_after { out.new ≡ put_at out.old at
        (unknown_line command.now words.now) }
{
    let one = put_start(out, at, command, words);
    put_unknown(out, one, words)
}

fn put_bad_line(out: &mut [u8], at: usize, command: &[u8], words: &[u8], name: Name) -> usize
    ensures value { result ≡ place_after (length out.old) at
        (bad_line command.now words.now name) }
    ensures out_after { out.new ≡ put_at out.old at
        (bad_line command.now words.now name) }
{
    let one = put_start(out, at, command, words);
    put_bad(out, one, name)
}

// The line has room for an argument of 4096 bytes, which it shows twice.
pub fn say_unknown(system: &System, command: &[u8], words: &[u8]) -> usize
    ensures { result ≡ place_after 9216 0 (unknown_line command.now words.now) }
{
    let mut line = [0u8; 9216];
    let n = put_unknown_line(&mut line, 0, command, words);
    say(system, begun(&line, n));
    n
}

pub fn say_bad(system: &System, command: &[u8], words: &[u8], name: Name) -> usize
    ensures { result ≡ place_after 9216 0 (bad_line command.now words.now name) }
{
    let mut line = [0u8; 9216];
    let n = put_bad_line(&mut line, 0, command, words, name);
    say(system, begun(&line, n));
    n
}

pub fn say_elsewhere(system: &System, command: &[u8], words: &[u8]) -> usize
    ensures { result ≡ place_after 9216 0
        (line_text command.now words.now (ascii " is a setting of another command\n")) }
{
    say_of(
        system,
        command,
        words,
        b" is a setting of another command\n",
    )
}

pub fn say_too_long(system: &System, command: &[u8]) -> usize
    ensures { result ≡ place_after 1024 0
        (plain_text command.now (ascii "an argument is longer than any file's name can be\n")) }
{
    say_plain(
        system,
        command,
        b"an argument is longer than any file's name can be\n",
    )
}
