// W2f, W10f. Which codes are known: a kind's are 0 to 2, and a form's are 0 and 1.
ghost use Rattle.std.specs.Prelude.{◌≡◌, leb};
ghost use Rattle.fugnadri_wav_write.specs.Exports.{form_of, rate_for};

use long_header::Form;

pub(crate) fn known(code: u8) -> bool
    ensures { result ≡ leb code 2 }
{
    code <= 2
}

pub(crate) fn form_of(form: u8) -> Form
    ensures { result ≡ form_of form }
{
    if form == 0 { Form::Rf64 } else { Form::Bw64 }
}

// The rate counts as 0 if the form's code is unknown, so that 1 refuses the call before any other test.
pub(crate) fn rate_for(form: u8, rate: u32) -> u32
    ensures { result ≡ rate_for form rate }
{
    if form <= 1 { rate } else { 0 }
}
