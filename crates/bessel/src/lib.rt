// 000's bessel_i0, the sum that stands for I0 in a table's window, and a mode in which it goes on until its terms no
// longer count.
#![tactic(auto)]

ghost use Rattle.std.specs.Prelude.{◌≡◌};
ghost use Rattle.bessel.specs.Series.{series_of};
ghost use Rattle.bessel.specs.Modes.{terms_of, sum_in, mode_of, known_code};

// W5. Ported is 000's sum: 24 terms after the first, which do not reach I0 for a beta above about 10.9. In Full the
// tolerance always ends the sum, because 41 terms are enough up to a beta of 20 (`tolerance-ends`).
#[derive(Clone, Copy)]
pub enum Mode {
    Ported,
    Full,
}

// F5, T2. The series of I0: 1 and at most `terms` terms after it, up to the first one below sum * 1.0e-16.
pub fn series(x: f64, terms: u32) -> f64
    ensures { result ≡ series_of terms x }
{
    let y = x * x / 4.0;
    let mut sum = 1.0;
    let mut term = 1.0;
    let mut k: u32 = 0;
    // By hand: F5 asks for a loop that breaks with its sum, and a `for` gives no value.
    loop {
        if k == terms {
            break sum;
        }
        k += 1;
        let n = k as f64;
        term = term * (y / (n * n));
        sum = sum + term;
        if term < sum * 1.0e-16 {
            break sum;
        }
    }
}

// 000 adds at most 24 terms.
pub fn bessel_i0(x: f64) -> f64
    ensures { result ≡ series_of 24 x }
{
    series(x, 24)
}

fn terms(mode: Mode) -> u32
    ensures { result ≡ terms_of mode }
{
    match mode {
        Mode::Ported => 24,
        Mode::Full => 64,
    }
}

// W5c. The sum that stands for I0, in a mode.
pub fn sum(mode: Mode, x: f64) -> f64
    ensures { result ≡ sum_in mode x }
{
    series(x, terms(mode))
}

// The mode with a number, for callers that can only pass numbers. A number above 1 is not a mode's; whoever takes
// numbers from outside tests that with `known`.
pub fn of_code(code: u8) -> Mode
    ensures { result ≡ mode_of code }
{
    if code == 0 { Mode::Ported } else { Mode::Full }
}

// Whether a number names a mode.
pub fn known(code: u8) -> bool
    ensures { result ≡ known_code code }
{
    code <= 1
}
