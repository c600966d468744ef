// W10. The first bytes of a WAV file of any length, its letters and its `ds64`: what they say, and how many bytes they
// are. Bytes that are missing count as 0, so that every slice is accepted.
#![tactic(auto)]

ghost use Rattle.std.specs.Prelude.{◌≡◌, [], ◌∷◌};
ghost use Rattle.refusal_order.specs.Order.{◌unless◌, first_of};
ghost use Rattle.wav_opening.specs.Opening.{
  has_letters,
  has_ds64,
  uses_ds64,
  true_riff,
  is_wave,
  sizes_there,
  sizes_small,
};
ghost use Rattle.wav_opening.specs.Opening.{riff_held, opening_needs, hand_tests, opening_tests, told_of, begun_of};
ghost use Rattle.wav_opening.specs.Opening.{asks as the-asks-Opening};

use refusal_order::both;
use true_sizes::{entry_count, is_long, small_sizes};
use word_bytes::{low_first, low_first_u32};

// The refusal, 0 for none, and the place where the walk over the chunks ends.
#[derive(Clone, Copy)]
pub struct Begun {
    pub refusal: u8,
    pub end: usize,
}

// The refusal that the opening alone decides: 1, 2, 9, 18, 19, or 10 for the RIFF's size.
pub fn begin(opening: &[u8], length: usize) -> Begun
    ensures { result ≡ begun_of opening.now length }
{
    let hand = hand_refusal(opening, length);
    if hand != 0 {
        return Begun {
            refusal: hand,
            end: 0,
        };
    }
    told(opening, length)
}

// The same if enough bytes are lent, so that 1 and 2 need no test: 9, 18, 19, or 10 for the RIFF's size.
pub fn told(opening: &[u8], length: usize) -> Begun
    ensures { result ≡ told_of opening.now length }
{
    let refusal = first_refusal(opening, length);
    if refusal != 0 {
        return Begun {
            refusal: refusal,
            end: 0,
        };
    }
    Begun {
        refusal: 0,
        end: 8 + true_riff(opening, length),
    }
}

fn hand_refusal(opening: &[u8], length: usize) -> u8
    ensures { result ≡ first_of (hand_tests opening.now length) }
{
    if length < opening.len() {
        return 1;
    }
    if opening_needs(opening, length) != 0 {
        return 2;
    }
    0
}

fn first_refusal(opening: &[u8], length: usize) -> u8
    ensures { result ≡ first_of (opening_tests opening.now length) }
{
    first(
        is_wave(opening, length),
        sizes_there(opening, length),
        sizes_small(opening, length),
        riff_held(opening, length),
    )
}

fn first(t9: bool, t18: bool, t19: bool, t10: bool) -> u8
    ensures { result ≡ first_of (9 unless t9 ∷ 18 unless t18 ∷ 19 unless t19 ∷ 10 unless t10 ∷ []) }
{
    if t9 {
        if t18 {
            if t19 { if t10 { 0 } else { 10 } } else { 19 }
        } else {
            18
        }
    } else {
        9
    }
}

// How many first bytes the opening has: the letters, for RF64 and BW64 also the head of the first chunk, and for a
// `ds64` also its fixed part and its table. Each is known only from the bytes before it.
pub fn opening_needs(opening: &[u8], length: usize) -> usize
    ensures { result ≡ opening_needs opening.now length }
{
    let n = opening.len();
    let entries = entry_count(opening);
    let table = asks(n, true_riff(opening, length) >= 4, 48 + 12 * entries, 0);
    let fixed = asks(n, has_ds64(opening, length), 48, table);
    let long = both(is_long(opening), length >= 20);
    let head = asks(n, both(has_letters(opening), long), 20, fixed);
    asks(n, length >= 12, 12, head)
}

fn asks(n: usize, made: bool, reach: usize, later: usize) -> usize
    ensures { result ≡ the-asks-Opening n made reach later }
{
    if made {
        if n < reach { reach } else { later }
    } else {
        0
    }
}

fn is_wave(opening: &[u8], length: usize) -> bool
    ensures { result ≡ is_wave opening.now length }
{
    both(
        length >= 12,
        both(has_letters(opening), true_riff(opening, length) >= 4),
    )
}

// The file begins with `RIFF`, `RF64` or `BW64`, and `WAVE` follows.
fn has_letters(opening: &[u8]) -> bool
    ensures { result ≡ has_letters opening.now }
{
    both(
        low_first_u32(opening, 0) == 0x4646_4952 || is_long(opening),
        low_first_u32(opening, 8) == 0x4556_4157,
    )
}

// `ds64` is the first chunk, has 28 bytes or more, and lies in the file.
fn has_ds64(opening: &[u8], length: usize) -> bool
    ensures { result ≡ has_ds64 opening.now length }
{
    let size = low_first_u32(opening, 16) as usize;
    both(
        low_first_u32(opening, 12) == 0x3436_7364,
        both(size >= 28, 20 + size <= length),
    )
}

fn uses_ds64(opening: &[u8], length: usize) -> bool
    ensures { result ≡ uses_ds64 opening.now length }
{
    both(is_long(opening), has_ds64(opening, length))
}

fn true_riff(opening: &[u8], length: usize) -> usize
    ensures { result ≡ true_riff opening.now length }
{
    let field = low_first_u32(opening, 4);
    if both(uses_ds64(opening, length), field == 0xffff_ffff) {
        return low_first(opening, 20) as usize;
    }
    field as usize
}

fn sizes_there(opening: &[u8], length: usize) -> bool
    ensures { result ≡ sizes_there opening.now length }
{
    !is_long(opening) || has_ds64(opening, length)
}

// The table is read only if there is a `ds64`, because in other files these bytes mean something else.
fn sizes_small(opening: &[u8], length: usize) -> bool
    ensures { result ≡ sizes_small opening.now length }
{
    if uses_ds64(opening, length) {
        return small_sizes(opening);
    }
    true
}

// The RIFF's size may be any word, so 8 is subtracted from the length instead of added to the size.
fn riff_held(opening: &[u8], length: usize) -> bool
    ensures { result ≡ riff_held opening.now length }
{
    if length < 8 {
        return false;
    }
    true_riff(opening, length) <= length - 8
}
