// W10. The first 48 bytes of a file past RIFF: its letters and the whole `ds64`.
ghost use Rattle.std.specs.Prelude.{◌≡◌};
ghost use Rattle.long_header.specs.LongHeader.{form_name, opening_of};

use crate::Form;
use word_bytes::low_first_bytes;

pub(crate) fn opening_of(form: Form, riff: usize, size: usize, frames: usize) -> [u8; 48]
    ensures { result ≡ opening_of form riff size frames }
{
    let n = letters(form);
    let a = low_first_bytes(riff as u64);
    let b = low_first_bytes(size as u64);
    let c = low_first_bytes(frames as u64);
    [
        n[0], n[1], n[2], n[3], 255, 255, 255, 255, 87, 65, 86, 69, 100, 115, 54, 52, 28, 0, 0, 0,
        a[0], a[1], a[2], a[3], a[4], a[5], a[6], a[7], b[0], b[1], b[2], b[3], b[4], b[5], b[6],
        b[7], c[0], c[1], c[2], c[3], c[4], c[5], c[6], c[7], 0, 0, 0, 0,
    ]
}

fn letters(form: Form) -> [u8; 4]
    ensures { result ≡ form_name form }
{
    match form {
        Form::Rf64 => [82, 70, 54, 52],
        Form::Bw64 => [66, 87, 54, 52],
    }
}
