// W12. Numbers of two, four and eight bytes, high byte first, read at a place of a slice. If the slice ends earlier,
// only the bytes before its end are read.
#![tactic(auto)]

ghost use Rattle.std.specs.Prelude.{◌≡◌, ◌^◌, ◌<◌, ◌≤◌, length};
ghost use Rattle.high_first.specs.High.{big_value, big_number};

use word_bytes::part;

pub fn two(s: &[u8], at: usize) -> u32
    ensures value { result ≡ big_number 2 s.now at }
    ensures upper_bound { result < 0x1_0000 }
{
    read(part(s, at, 2)) as u32
}

pub fn four(s: &[u8], at: usize) -> u32
    ensures { result ≡ big_number 4 s.now at }
{
    read(part(s, at, 4)) as u32
}

pub fn eight(s: &[u8], at: usize) -> u64
    ensures { result ≡ big_number 8 s.now at }
{
    read(part(s, at, 8))
}

fn read(s: &[u8]) -> u64
    requires { length s.now ≤ 8 }
    ensures value { result ≡ big_value s.now }
    ensures upper_bound { result < 256 ^ length s.now }
{
    let mut v: u64 = 0;
    for x in s {
        v = v * 256 + u64::from(*x);
    }
    v
}
