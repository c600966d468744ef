// Whether a text is UTF-8 that XML accepts, by a table of states with one step for each byte.
#![tactic(auto)]

ghost use Rattle.std.specs.Prelude.{◌≡◌};
ghost use Rattle.utf8.specs.Utf8.{within, opens, continues, next_of, is_utf8};

fn inside(low: u8, high: u8, b: u8) -> bool
    ensures { result ≡ within low high b }
{
    refusal_order::both(low <= b, b <= high)
}

// The state after the first byte of a character.
fn opened(b: u8) -> u8
    ensures { result ≡ opens b }
{
    if b < 0x80 {
        0
    } else if b < 0xc2 {
        10
    } else if b < 0xe0 {
        1
    } else if b == 0xe0 {
        4
    } else if b == 0xed {
        5
    } else if b == 0xef {
        8
    } else if b < 0xf0 {
        2
    } else if b == 0xf0 {
        6
    } else if b < 0xf4 {
        3
    } else if b == 0xf4 {
        7
    } else {
        10
    }
}

// The state after a byte that continues a character.
fn continued(low: u8, high: u8, next: u8, b: u8) -> u8
    ensures { result ≡ continues low high next b }
{
    if inside(low, high, b) { next } else { 10 }
}

fn next(place: u8, b: u8) -> u8
    ensures { result ≡ next_of place b }
{
    if place == 0 {
        opened(b)
    } else if place == 1 {
        continued(0x80, 0xbf, 0, b)
    } else if place == 2 {
        continued(0x80, 0xbf, 1, b)
    } else if place == 3 {
        continued(0x80, 0xbf, 2, b)
    } else if place == 4 {
        continued(0xa0, 0xbf, 1, b)
    } else if place == 5 {
        continued(0x80, 0x9f, 1, b)
    } else if place == 6 {
        continued(0x90, 0xbf, 2, b)
    } else if place == 7 {
        continued(0x80, 0x8f, 2, b)
    } else if place == 8 {
        if b == 0xbf {
            9
        } else {
            continued(0x80, 0xbe, 1, b)
        }
    } else if place == 9 {
        continued(0x80, 0xbd, 0, b)
    } else {
        10
    }
}

pub fn is_utf8(text: &[u8]) -> bool
    ensures { result ≡ is_utf8 text.now }
{
    let mut place: u8 = 0;
    for b in text {
        place = next(place, *b);
    }
    place == 0
}
