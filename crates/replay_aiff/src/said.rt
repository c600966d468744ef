// Numbers on standard output, each with a blank behind it.

use streams::{print_decimal, print_hex, write_all};

pub fn number(rt: &HostRuntime, n: u64) {
    print_decimal(rt, n);
    write_all(rt, b" ");
}

// Writes at least so many hex digits.
pub fn pattern(rt: &HostRuntime, n: u64, digits: usize) {
    print_hex(rt, n, digits);
    write_all(rt, b" ");
}

pub fn end_of_line(rt: &HostRuntime) {
    write_all(rt, b"\n");
}
