// Bytes of an open file from a place on, read by one call.
ghost use Rattle.wave_file.specs.Reads.{Reads};

use system::System;

// Fills a slice. Returns 0, 1 if the call failed, for the reason that the system has, or 2 if the file ended.
pub(crate) fn read_at(system: &System, fd: i32, at: usize, bytes: &mut [u8]) -> u8
    ensures { Reads result }
{
    let Some(n) = system.read_at(fd, bytes, offset(at)) else {
        return 1;
    };
    if n < bytes.len() {
        return 2;
    }
    0
}

// The same for the first n bytes of a slice, or for all of it if it has fewer.
pub(crate) fn read_begun(system: &System, fd: i32, at: usize, bytes: &mut [u8], n: usize) -> u8
    ensures { Reads result }
{
    if n < bytes.len() {
        return read_at(system, fd, at, &mut bytes[..n]);
    }
    read_at(system, fd, at, &mut bytes[..])
}

// No file is longer than the largest i64, so a larger place may be cut to it.
fn offset(at: usize) -> u64 {
    if at < 0x7fff_ffff_ffff_ffff {
        at as u64
    } else {
        0x7fff_ffff_ffff_ffff
    }
}
