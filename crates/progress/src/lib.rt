// How far a command is, shown anew each second if standard error is a terminal, in a line that the next one is written
// over. The program finds out from the system whether there is a terminal and which second it is.
#![tactic(auto)]

ghost use Rattle.std.specs.Prelude.{◌≡◌, cond, length};
ghost use Rattle.text.specs.Text.{put_at, place_after};
ghost use Rattle.progress.specs.Progress.{hundredths_of, percent_text, progress_text, blank_text};

use error_lines::say;
use sizes::{begun, quotient, times};
use system::System;
use text::put;

// The number of hundredths done.
pub fn hundredths(done: usize, all: usize) -> usize
    ensures { result ≡ hundredths_of done all }
{
    quotient(times(done, 100), all)
}

fn put_percent(out: &mut [u8], at: usize, command: &[u8], n: usize) -> usize
    ensures value { result ≡ place_after (length out.old) at (percent_text command.now n) }
    ensures out_after { out.new ≡ put_at out.old at (percent_text command.now n) }
{
    let one = put(out, at, command);
    let two = put(out, one, b": ");
    let three = text::put_decimal(out, two, n as u64);
    put(out, three, b" %   \r")
}

// Puts the line that shows how far the command is.
pub fn put_progress(out: &mut [u8], at: usize, command: &[u8], done: usize, all: usize) -> usize
    ensures value { result ≡ place_after (length out.old) at (progress_text command.now done all) }
    ensures out_after { out.new ≡ put_at out.old at (progress_text command.now done all) }
{
    let n = hundredths(done, all);
    put_percent(out, at, command, n)
}

fn say_progress(system: &System, command: &[u8], done: usize, all: usize) {
    let mut line = [0u8; 64];
    let n = put_progress(&mut line, 0, command, done, all);
    say(system, begun(&line, n));
}

// Shows the line if a new second has begun since the last time.
fn tell_anew(
    system: &System,
    command: &[u8],
    done: usize,
    all: usize,
    last: i64,
    second: i64,
) -> i64
    ensures { result ≡ second }
{
    if second == last {
        return second;
    }
    say_progress(system, command, done, all);
    second
}

// Shows the line if there is a terminal, and gives the second to pass to the next call.
pub fn tell(
    system: &System,
    command: &[u8],
    done: usize,
    all: usize,
    terminal: bool,
    last: i64,
    second: i64,
) -> i64
    ensures { result ≡ cond terminal second last }
{
    if terminal {
        return tell_anew(system, command, done, all, last, second);
    }
    last
}

// Blanks the line, and gives the number of bytes that this took.
pub fn clear(system: &System, terminal: bool) -> usize
    ensures { result ≡ cond terminal (length blank_text) 0 }
{
    if terminal {
        return say(system, b"                              \r");
    }
    0
}
