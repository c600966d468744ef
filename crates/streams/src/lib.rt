// Standard input, output and error as bytes. Which bytes a read gives, and that a write has taken them, no contract can
// say: an answer tells whether a call failed, or how many bytes there are.
#![tactic(auto)]

ghost use Rattle.std.specs.Prelude.{◌≤◌, length};

use std::io::{Read, Write};

// Reads standard input until the slice is full, the input ends or a read fails, and gives how many bytes it put at the
// start of the slice. For an empty slice nothing is called.
pub fn read_full(rt: &HostRuntime, buf: &mut [u8]) -> usize
    ensures { result ≤ length buf.new }
{
    let mut done: usize = 0;
    // By hand: how far a read comes only the read says, and one that gives nothing ends the loop; no count does.
    while done < buf.len() {
        let n = read_some(rt, &mut buf[done..]);
        if n == 0 {
            break;
        }
        done += n;
    }
    done
}

// One read of standard input: how many bytes it gave, 0 at the end and where it fails.
fn read_some(rt: &HostRuntime, buf: &mut [u8]) -> usize
    ensures { result ≤ length buf.new }
{
    match rt.stdin().read(buf) {
        Ok(n) => n,
        Err(_) => 0,
    }
}

// Whether one more read of standard input works, at its end too.
pub fn can_be_read(rt: &HostRuntime, spare: &mut [u8]) -> bool {
    rt.stdin().read(spare).is_ok()
}

// Writes all bytes to standard output, and tells whether it took them.
pub fn write_all(rt: &HostRuntime, bytes: &[u8]) -> bool {
    rt.stdout().write_all(bytes).is_ok()
}

// The same for standard error.
pub fn write_error(rt: &HostRuntime, bytes: &[u8]) -> bool {
    rt.stderr().write_all(bytes).is_ok()
}

// Writes a number in decimal to standard output, with no end of the line.
pub fn print_decimal(rt: &HostRuntime, n: u64) -> bool {
    let mut digits = [0u8; 20];
    let k = text::put_decimal(&mut digits, 0, n);
    write_all(rt, sizes::begun(&digits, k))
}

// The same in hexadecimal, in lower case, with zeros in front up to `width` digits. A width of 0 counts as 1, and one
// above 16 as 16.
pub fn print_hex(rt: &HostRuntime, n: u64, width: usize) -> bool {
    let mut digits = word_bytes::hex16(n);
    digits.make_ascii_lowercase();
    let from = first_digit(&digits, width);
    if from < 16 {
        return write_all(rt, &digits[from..]);
    }
    write_all(rt, b"0")
}

// The place of the first digit that is not 0, or of the one from which on there are `width`.
fn first_digit(digits: &[u8; 16], width: usize) -> usize {
    let most = sizes::less(16, sizes::fewer(width, 16));
    digits[..most]
        .iter()
        .position(|d| *d != b'0')
        .unwrap_or(most)
}
