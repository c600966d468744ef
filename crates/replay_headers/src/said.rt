// Numbers on standard output, each followed by a blank.

use streams::{print_decimal, write_all};

pub fn number(rt: &HostRuntime, n: u64) {
    print_decimal(rt, n);
    write_all(rt, b" ");
}

pub fn end_of_line(rt: &HostRuntime) {
    write_all(rt, b"\n");
}
