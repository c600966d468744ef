// Words as bytes, the lowest byte first.
ghost use Rattle.std.specs.Prelude.{◌≡◌, ◌^◌, ◌<◌, ◌≤◌, length, take, drop};
ghost use Rattle.word_bytes.specs.Bytes.{low_bytes, bytes_value};

use crate::part;

// The word whose eight bytes stand at a place of s; bytes past the end count as 0.
pub fn low_first(s: &[u8], at: usize) -> u64
    ensures { result ≡ bytes_value (take 8 (drop at s.now)) }
{
    read_bytes(part(s, at, 8))
}

// The word whose four bytes stand at a place of s; bytes past the end count as 0.
pub fn low_first_u32(s: &[u8], at: usize) -> u32
    ensures { result ≡ bytes_value (take 4 (drop at s.now)) }
{
    read_bytes(part(s, at, 4)) as u32
}

fn read_bytes(s: &[u8]) -> u64
    requires { length s.now ≤ 8 }
    ensures value { result ≡ bytes_value s.now }
    ensures upper_bound { result < 256 ^ length s.now }
{
    let mut v: u64 = 0;
    for k in (0..s.len()).rev() {
        v = v * 256 + u64::from(s[k]);
    }
    v
}

pub fn low_first_bytes(n: u64) -> [u8; 8]
    ensures { result ≡ low_bytes 8 n }
{
    let mut out = [0u8; 8];
    write_bytes(n, &mut out);
    out
}

pub fn low_first_bytes_u32(n: u32) -> [u8; 4]
    ensures { result ≡ low_bytes 4 n }
{
    let mut out = [0u8; 4];
    write_bytes(u64::from(n), &mut out);
    out
}

pub fn write_bytes(n: u64, out: &mut [u8])
    ensures { out.new ≡ low_bytes (length out.old) n }
{
    let mut v = n;
    for byte in out.iter_mut() {
        *byte = (v % 256) as u8;
        v /= 256;
    }
}
