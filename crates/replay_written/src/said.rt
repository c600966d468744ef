// A line of standard output: three numbers, then the bytes.

use streams::{print_decimal, print_hex, write_all};

fn number(rt: &HostRuntime, n: u64) {
    print_decimal(rt, n);
    write_all(rt, b" ");
}

fn end_of_line(rt: &HostRuntime) {
    write_all(rt, b"\n");
}

pub fn tell(rt: &HostRuntime, refusal: u8, length: usize, told: usize, out: &[u8]) {
    number(rt, u64::from(refusal));
    number(rt, length as u64);
    number(rt, told as u64);
    for byte in out {
        print_hex(rt, u64::from(*byte), 2);
    }
    end_of_line(rt);
}
