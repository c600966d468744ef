// The header and the pad byte of a WAV file, written to an open file: RIFF if the file fits it, otherwise RF64 (W10e).
// Failures are reported on standard error.
#![tactic(auto)]

ghost use Rattle.std.specs.Prelude.{◌≡◌, true, false, ◌%◌, eqb, length};
ghost use Rattle.long_header.specs.declared.Form.TheVariants.{Rf64};
ghost use Rattle.long_header.specs.Refusals.{file_verdict_for, header_verdict_for, header_after};

use error_lines::say_of;
use long_header::Form;
use part_file::write;
use sample_kind::SampleKind;
use sizes::begun;
use system::System;
use text::put;

// Whether so many samples can be written as a file; a refusal, 1 or 19, is reported.
pub fn can_be_written(
    system: &System,
    command: &[u8],
    name: &[u8],
    kind: SampleKind,
    channels: u8,
    rate: u32,
    count: usize,
) -> bool
    ensures { result ≡ eqb (file_verdict_for kind channels rate count) 0 }
{
    let refused = long_header::refusal_for(kind, channels, rate, count);
    if refused == 0 {
        return true;
    }
    say_refused(system, command, name, refused, rate);
    false
}

// Only two refusals are possible, because a file that was read has one or two channels and whole frames: 19, and 1 for
// the rate.
fn say_refused(system: &System, command: &[u8], name: &[u8], refused: u8, rate: u32) {
    if refused == 19 {
        say_of(
            system,
            command,
            name,
            b" is refused by 19: what is to be written has more than 1099511627776 bytes: cut the side in two\n",
        );
        return;
    }
    say_rate(system, command, name, rate);
}

fn say_rate(system: &System, command: &[u8], name: &[u8], rate: u32) {
    let mut line = [0u8; 256];
    let at = put(&mut line, 0, b" is refused by 1: its rate is ");
    let at = text::put_decimal(&mut line, at, rate as u64);
    let at = put(
        &mut line,
        at,
        b" Hz, and 8000 to 768000 are written: write it at one of these, as by: sox FILE -r 48000 OUT.wav\n",
    );
    say_of(system, command, name, begun(&line, at));
}

// Writes the header, or nothing if it is refused. No contract can say what reaches a file.
pub fn write_header(
    system: &System,
    command: &[u8],
    name: &[u8],
    fd: i32,
    kind: SampleKind,
    channels: u8,
    rate: u32,
    count: usize,
) -> bool
    ensures { (header_verdict_for kind channels rate count 94 ≡ 0 → ⊥) → result ≡ false }
{
    let mut head = [0u8; 94];
    let n = long_header::header_length_for(kind, count);
    if put_header(kind, channels, rate, count, &mut head) != 0 {
        return false;
    }
    write_head(system, command, name, fd, &head, n)
}

fn write_head(
    system: &System,
    command: &[u8],
    name: &[u8],
    fd: i32,
    head: &[u8; 94],
    n: usize,
) -> bool {
    write(system, command, name, fd, begun(head, n))
}

fn put_header(kind: SampleKind, channels: u8, rate: u32, count: usize, head: &mut [u8]) -> u8
    ensures value { result ≡ header_verdict_for kind channels rate count (length head.old) }
    ensures head_after { head.new ≡ header_after Rf64 kind channels rate count head.old }
{
    long_header::header_of(Form::Rf64, kind, channels, rate, count, &mut head[..])
}

// Writes the pad byte behind an odd number of bytes. Behind an even number nothing is written, so nothing can fail.
pub fn write_pad(system: &System, command: &[u8], name: &[u8], fd: i32, size: usize) -> bool
    ensures { size % 2 ≡ 0 → result ≡ true }
{
    if size % 2 == 1 {
        return write(system, command, name, fd, b"\0");
    }
    true
}
