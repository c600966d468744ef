// An opening or a reset of the cascaded reader, taken apart into plain numbers (C4).
ghost use Rattle.std.specs.Prelude.{◌≡◌};
ghost use Rattle.oversampled_codes.specs.Openings as openings;

use super::Numbers;
use cascaded_delay::Opened;

pub fn opened_number(o: Opened) -> u8
    ensures { result ≡ openings.cascaded_number o }
{
    match o {
        Opened::Reader(_) => 0,
        Opened::Refused(k) => k,
    }
}

// What the opened reader counts; if that was refused, what stood there.
pub fn opened_numbers(before: Numbers, o: Opened) -> Numbers
    ensures { result ≡ openings.cascaded_numbers before o }
{
    match o {
        Opened::Reader(d) => Numbers {
            accepted: d.accepted,
            inner: d.inner,
            previous: d.previous,
        },
        Opened::Refused(_) => before,
    }
}
