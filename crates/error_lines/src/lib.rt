// What a program says on standard error, one whole line at a time, and the status that it ends with. What a line says
// is given by equations; that the system takes it is assumed (docs/TRUST.md), so each call gives the number of bytes
// that it has handed over.
#![tactic(auto)]

ghost use Rattle.std.specs.Prelude.{◌≡◌, length};
ghost use Rattle.text.specs.Text.{put_at, place_after};
ghost use Rattle.std.specs.Process.{exit_status};
ghost use Rattle.error_lines.specs.Lines.{name_text, start_text, line_text, plain_text, end_sign, usage_sign};
ghost use Rattle.error_lines.specs.Lines.{status_of};

use sizes::begun;
use std::process::ExitCode;
use system::{STANDARD_ERROR, System};
use text::put;

// The status of a program that ended well, and of one whose arguments were wrong. Any other end has the status 1.
const END: u8 = 0;

const USAGE: u8 = 2;

// Puts a file's name as a line shows it.
pub fn put_name(out: &mut [u8], at: usize, name: &[u8]) -> usize
    ensures value { result ≡ place_after (length out.old) at (name_text name.now) }
    ensures out_after { out.new ≡ put_at out.old at (name_text name.now) }
{
    if name.len() == 0 {
        return put(out, at, b"''");
    }
    put(out, at, name)
}

// Puts the beginning of a line: the command, and a file's name or an argument.
pub fn put_start(out: &mut [u8], at: usize, command: &[u8], name: &[u8]) -> usize
    ensures value { result ≡ place_after (length out.old) at
        (start_text command.now name.now) }
    ensures out_after { out.new ≡ put_at out.old at
        (start_text command.now name.now) }
{
    let one = put(out, at, command);
    let two = put(out, one, b": ");
    put_name(out, two, name)
}

// Puts the beginning of a line and what it says of the file or the argument, which ends the line.
pub fn put_line(out: &mut [u8], at: usize, command: &[u8], name: &[u8], words: &[u8]) -> usize
    ensures value { result ≡ place_after (length out.old) at
        (line_text command.now name.now words.now) }
    ensures out_after { out.new ≡ put_at out.old at
        (line_text command.now name.now words.now) }
{
    let one = put_start(out, at, command, name);
    put(out, one, words)
}

// Puts a line about something that has no name.
pub fn put_plain(out: &mut [u8], at: usize, command: &[u8], words: &[u8]) -> usize
    ensures value { result ≡ place_after (length out.old) at
        (plain_text command.now words.now) }
    ensures out_after { out.new ≡ put_at out.old at
        (plain_text command.now words.now) }
{
    let one = put(out, at, command);
    let two = put(out, one, b": ");
    put(out, two, words)
}

// The status that says that everything went well.
pub fn succeed() -> ExitCode
    ensures { exit_status result ≡ status_of end_sign }
{
    ExitCode::from(END)
}

// The status that says that the arguments were wrong.
pub fn misused() -> ExitCode
    ensures { exit_status result ≡ status_of usage_sign }
{
    ExitCode::from(USAGE)
}

fn hand_over(system: &System, words: &[u8]) -> usize
    ensures { result ≡ length words.now }
{
    system.write_all(STANDARD_ERROR, words);
    words.len()
}

pub fn say(system: &System, words: &[u8]) -> usize
    ensures { result ≡ length words.now }
{
    hand_over(system, words)
}

// The line has room for two names of 4096 bytes and for what is said of them.
pub fn say_of(system: &System, command: &[u8], name: &[u8], words: &[u8]) -> usize
    ensures { result ≡ place_after 9216 0
        (line_text command.now name.now words.now) }
{
    let mut line = [0u8; 9216];
    let n = put_line(&mut line, 0, command, name, words);
    system.write_all(STANDARD_ERROR, begun(&line, n));
    n
}

pub fn say_plain(system: &System, command: &[u8], words: &[u8]) -> usize
    ensures { result ≡ place_after 1024 0 (plain_text command.now words.now) }
{
    let mut line = [0u8; 1024];
    let n = put_plain(&mut line, 0, command, words);
    system.write_all(STANDARD_ERROR, begun(&line, n));
    n
}

// Says that a call of the system's failed: the beginning of a line, and then the reason, which is not counted.
pub fn say_failed(system: &System, command: &[u8], name: &[u8]) -> usize
    ensures { result ≡ place_after 4608 0 (start_text command.now name.now) }
{
    let mut line = [0u8; 4608];
    let n = put_start(&mut line, 0, command, name);
    system.fail(begun(&line, n));
    n
}
