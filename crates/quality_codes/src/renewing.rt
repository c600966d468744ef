// Q3. A quality reader's opening and reset on plain numbers.
ghost use Rattle.std.specs.Prelude.{◌≡◌, length};
ghost use Rattle.quality_codes.specs.Calls.{opened_apart, renewed_of, ring_renewed};

use super::codes::{decode, encode, fields_ok, odd};
use super::{Called, Coded};
use quality_variable_delay::Opened;
use refusal_order::both;

fn opened_apart(state: Coded, o: Opened) -> Called
    ensures { result ≡ opened_apart state o }
{
    match o {
        Opened::Reader(d) => Called {
            state: encode(d),
            number: 0,
            sample: 0.0,
        },
        Opened::Refused(k) => Called {
            state: state,
            number: k,
            sample: 0.0,
        },
    }
}

// Q3. Opening and reset. `asked` is false if a quality that is passed as an argument has a number above 3.
pub fn renew(asked: bool, state: Coded, ring: &mut [f32]) -> Called
    ensures value { result ≡ renewed_of asked state (length ring.old) }
    ensures ring_after { ring.new ≡ ring_renewed asked state ring.old }
{
    let d = decode(state);
    if both(asked, fields_ok(state)) {
        let o = quality_variable_delay::reset(d, &mut ring[..]);
        return opened_apart(state, o);
    }
    let v = quality_variable_delay::reset_refusal(d, ring.len());
    Called {
        state: state,
        number: odd(asked, v),
        sample: 0.0,
    }
}
