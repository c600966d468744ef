// W10. The true sizes of a file past four gigabytes, read from its first bytes: RF64 or BW64, then `ds64`, whose body
// starts at place 20. Bytes that are missing count as 0, so that every slice is accepted.
#![tactic(auto)]

ghost use Rattle.std.specs.Prelude.{◌≡◌, ◌+◌, ◌-◌, ◌/◌, ◌≤◌, min, length};
ghost use Rattle.true_sizes.specs.Sizes.{is_long, small_sizes, size64, true_size, entry_count, entry_at, entries_from};
ghost use Rattle.true_sizes.specs.Sizes.{size_in, all_small};

use refusal_order::both;
use word_bytes::{low_first, low_first_u32};

// An entry of the table: a chunk's identifier and its size.
#[derive(Clone, Copy)]
pub struct Entry {
    pub id: u32,
    pub size: u64,
}

// Whether the file begins with `RF64` or `BW64`.
pub fn is_long(opening: &[u8]) -> bool
    ensures { result ≡ is_long opening.now }
{
    let id = low_first_u32(opening, 0);
    id == 0x3436_4652 || id == 0x3436_5742
}

// The true size of a chunk, from its identifier and its 32-bit size.
pub fn true_size(opening: &[u8], id: u32, field: u32) -> usize
    ensures { result ≡ true_size opening.now id field }
{
    if both(is_long(opening), field == 0xffff_ffff) {
        return size_64(opening, id);
    }
    field as usize
}

fn size_64(opening: &[u8], id: u32) -> usize
    ensures { result ≡ size64 opening.now id }
{
    if id == 0x6174_6164 {
        return low_first(opening, 28) as usize;
    }
    if id == 0x3436_7364 {
        return 0xffff_ffff;
    }
    size_in(opening, looked_at(opening), id)
}

// 19. Whether neither the size of `data` nor that of an entry is above 2^40.
pub fn small_sizes(opening: &[u8]) -> bool
    ensures { result ≡ small_sizes opening.now }
{
    both(
        low_first(opening, 28) <= 0x100_0000_0000,
        all_small(opening, looked_at(opening)),
    )
}

// The number of entries in the table. It is bounded by the size of the body, so that the place of an entry cannot
// overflow.
pub fn entry_count(opening: &[u8]) -> usize
    ensures value { result ≡ entry_count opening.now }
    ensures upper_bound { result ≤ 0xffff_ffff }
{
    let told = low_first_u32(opening, 44) as usize;
    let held = (low_first_u32(opening, 16) as usize).saturating_sub(28) / 12;
    told.min(held)
}

// The number of entries that a loop needs to read. Entries behind the lent bytes are all zeros, and the first of them
// gives the same answer as all.
fn looked_at(opening: &[u8]) -> usize
    ensures value { result ≡ min (entry_count opening.now) ((length opening.now - 48) / 12 + 2) }
    ensures upper_bound { result ≤ 0xffff_ffff }
{
    let count = entry_count(opening);
    let lent = opening.len().saturating_sub(48) / 12 + 2;
    count.min(lent)
}

fn entry_at(opening: &[u8], at: usize) -> Entry
    requires { at ≤ 0xff_ffff_ffff }
    ensures { result ≡ entry_at opening.now at }
{
    let id = low_first_u32(opening, at);
    let size = low_first(opening, at + 4);
    Entry { id, size }
}

fn size_in(opening: &[u8], count: usize, id: u32) -> usize
    requires { count ≤ 0xffff_ffff }
    ensures { result ≡ size_in id (entries_from opening.now count 48) }
{
    for k in 0..count {
        let e = entry_at(opening, 48 + 12 * k);
        if e.id == id {
            return e.size as usize;
        }
    }
    0xffff_ffff
}

fn all_small(opening: &[u8], count: usize) -> bool
    requires { count ≤ 0xffff_ffff }
    ensures { result ≡ all_small (entries_from opening.now count 48) }
{
    (0..count).all(|k| entry_at(opening, 48 + 12 * k).size <= 0x100_0000_0000)
}
