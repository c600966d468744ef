// A file that is written whole or not at all: it is written as NAME.part, and gets its name at the end. A file that
// exists is never touched. `-` is standard output. Errors are reported on standard error, after the command's name.
// Whether a file is made, written and named is the system's answer, so the contracts state what holds whatever it is.
#![tactic(auto)]

ghost use Rattle.std.specs.Prelude.{◌≡◌, length};
ghost use Rattle.text.specs.Text.{put_at, place_after};
ghost use Rattle.error_lines.specs.Lines.{start_text};
ghost use Rattle.part_file.specs.Parts.{is_standard, shown_name, part_text, MadeFor, WrittenOf, StandsAs};
ghost use Rattle.part_file.specs.Parts.{FinishedAs};

use error_lines::{say_failed, say_of};
use sizes::begun;
use system::{STANDARD_OUTPUT, System};

fn is_standard(name: &[u8]) -> bool
    ensures { result ≡ is_standard name.now }
{
    spelling::same(name, b"-")
}

fn put_part(part: &mut [u8], name: &[u8]) -> usize
    ensures value { result ≡ place_after (length part.old) 0 (part_text name.now) }
    ensures part_after { part.new ≡ put_at part.old 0 (part_text name.now) }
{
    let at = text::put(part, 0, name);
    text::put(part, at, b".part")
}

// Opens NAME.part for writing and gives its number, or says why it cannot.
pub fn make(system: &System, command: &[u8], name: &[u8]) -> Option<i32>
    ensures { MadeFor name.now result }
{
    if is_standard(name) {
        return Some(STANDARD_OUTPUT);
    }
    make_named(system, command, name)
}

// The name itself is made and removed again, so that a name that is taken or cannot be made is reported before the work
// begins.
fn make_named(system: &System, command: &[u8], name: &[u8]) -> Option<i32> {
    if !claim(system, command, name) {
        return None;
    }
    system.unlink(name);
    let mut part = [0u8; 4110];
    let n = put_part(&mut part, name);
    make_part(system, command, begun(&part, n))
}

// Makes the file under its own name, which fails if a file of that name exists.
fn claim(system: &System, command: &[u8], name: &[u8]) -> bool {
    let fd = system.create(name);
    if fd < 0 {
        say_taken(
            system,
            command,
            name,
            b" exists already: remove it or choose another name\n",
        );
        return false;
    }
    system.close(fd);
    true
}

fn make_part(system: &System, command: &[u8], part: &[u8]) -> Option<i32> {
    let fd = system.create(part);
    if fd < 0 {
        say_taken(
            system,
            command,
            part,
            b" exists already: another run is writing it, or one broke off: remove it then\n",
        );
        return None;
    }
    Some(fd)
}

fn say_taken(system: &System, command: &[u8], name: &[u8], words: &[u8]) {
    if system.existed() {
        say_of(system, command, name, words);
        return;
    }
    say_failed(system, command, name);
}

// Writes a block, or says why it cannot.
pub fn write(system: &System, command: &[u8], name: &[u8], fd: i32, bytes: &[u8]) -> bool
    ensures { WrittenOf bytes.now result }
{
    if bytes.len() == 0 {
        return true;
    }
    if system.write_all(fd, bytes) {
        return true;
    }
    say_unwritten(system, command, name);
    false
}

// Says that a block was not written. It must be called right after the call that failed, for its reason; it gives the
// number of bytes before that reason.
pub fn say_unwritten(system: &System, command: &[u8], name: &[u8]) -> usize
    ensures { result ≡ place_after 4608 0 (start_text command.now (shown_name name.now)) }
{
    if is_standard(name) {
        return say_failed(system, command, b"standard output");
    }
    say_failed(system, command, name)
}

// Ends a file, which gets its name if everything went well and is removed otherwise. The answer is whether the file
// stands under its name, whole.
pub fn finish(system: &System, command: &[u8], name: &[u8], fd: i32, well: bool) -> bool
    ensures { FinishedAs name.now well result }
{
    if well {
        return stands(system, command, name, fd);
    }
    discard(system, name, fd);
    false
}

fn stands(system: &System, command: &[u8], name: &[u8], fd: i32) -> bool
    ensures { StandsAs name.now result }
{
    if is_standard(name) {
        return true;
    }
    keep(system, command, name, fd)
}

fn discard(system: &System, name: &[u8], fd: i32) {
    if is_standard(name) {
        return;
    }
    let mut part = [0u8; 4110];
    let n = put_part(&mut part, name);
    system.close(fd);
    system.unlink(begun(&part, n));
}

fn keep(system: &System, command: &[u8], name: &[u8], fd: i32) -> bool {
    let mut part = [0u8; 4110];
    let n = put_part(&mut part, name);
    keep_part(system, command, name, begun(&part, n), fd)
}

fn keep_part(system: &System, command: &[u8], name: &[u8], part: &[u8], fd: i32) -> bool {
    if kept(system, command, name, fd) {
        return give_name(system, command, name, part);
    }
    system.unlink(part);
    false
}

// The name is claimed again and then replaced, so that a file that was made under it meanwhile is kept.
fn give_name(system: &System, command: &[u8], name: &[u8], part: &[u8]) -> bool {
    if !claim(system, command, name) {
        system.unlink(part);
        return false;
    }
    if !system.rename(part, name) {
        say_failed(system, command, name);
        system.unlink(part);
        system.unlink(name);
        return false;
    }
    true
}

// Waits until what was written has reached its device, because some systems report only then that it is full.
fn kept(system: &System, command: &[u8], name: &[u8], fd: i32) -> bool {
    if !system.sync(fd) {
        say_failed(system, command, name);
        system.close(fd);
        return false;
    }
    if !system.close(fd) {
        say_failed(system, command, name);
        return false;
    }
    true
}
