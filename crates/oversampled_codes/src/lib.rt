// The oversampled readers' kernels and openings on plain numbers, for C and Rust (W11).
#![tactic(auto)]

ghost use Rattle.std.specs.Prelude.{◌≡◌};
ghost use Rattle.oversampled_codes.specs.Codes.{kernel_of};

use kernels::Kernel;

pub mod cascaded; // an opening of the cascaded reader, taken apart
pub mod direct; // the same for the direct reader

// What a call, an opening or a reset changes of either reader's state.
#[derive(Drop)]
pub struct Numbers {
    pub accepted: u64,
    pub inner: u64,
    pub previous: f64,
}

// The kernel with this number. Above 3 it is a kernel whose settings are out of range, so that a call is refused by 1.
pub fn named(code: u8, taps: usize, phases: usize) -> Kernel
    ensures { result ≡ kernel_of code taps phases }
{
    match code {
        0 => Kernel::Cubic,
        1 => Kernel::Lagrange(taps as u64),
        2 => Kernel::Farrow8,
        3 => Kernel::Sinc(taps, phases),
        _ => Kernel::Lagrange(0),
    }
}
