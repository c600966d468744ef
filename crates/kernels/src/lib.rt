// 000's kernels of f64 as one enum, for the oversampled readers, which go over any of them (W11).
#![tactic(auto)]

ghost use Rattle.std.specs.Prelude.{◌≡◌};
ghost use Rattle.kernels.specs.Kernels.{read_by, taps_of, kernel_verdict};

// Lagrange has its taps; the windowed sinc has its taps and phases, and its table is lent beside it.
#[derive(Clone, Copy)]
pub enum Kernel {
    Cubic,
    Lagrange(u64),
    Farrow8,
    Sinc(usize, usize),
}

// What a kernel reads of a slice; zero if its own settings, its table's length or the position is out of range.
pub fn read<'a>(
    kernel: Kernel,
    table: &'a [f64],
    source: &'a [f64],
    count: u64,
    position: f64,
) -> f64
    ensures { result ≡ read_by kernel table.now source.now count position }
{
    match kernel {
        Kernel::Cubic => cubic_farrow::read(source, count, position),
        Kernel::Lagrange(taps) => lagrange::read(source, count, position, taps),
        Kernel::Farrow8 => farrow8::read(source, count, position),
        Kernel::Sinc(taps, phases) => sinc_read::read(table, taps, phases, source, count, position),
    }
}

// The number of taps of a reading, whose absent ones are counted (W11f).
pub fn taps(kernel: Kernel) -> u64
    ensures { result ≡ taps_of kernel }
{
    match kernel {
        Kernel::Cubic => 4,
        Kernel::Lagrange(taps) => taps,
        Kernel::Farrow8 => 8,
        Kernel::Sinc(taps, _) => taps as u64,
    }
}

// A kernel without a table needs an empty one, because a lent length must be exactly what the settings need (N2).
fn no_table(len: usize) -> u8
    ensures { result ≡ kernel_verdict Kernel.Cubic len }
{
    if len == 0 { 0 } else { 2 }
}

// The refusal for a kernel and a lent table of this length: 1, 2, or 0 for none.
pub fn refusal(kernel: Kernel, len: usize) -> u8
    ensures { result ≡ kernel_verdict kernel len }
{
    match kernel {
        Kernel::Cubic => no_table(len),
        Kernel::Lagrange(taps) => {
            if lagrange::taps_ok(taps) {
                no_table(len)
            } else {
                1
            }
        }
        Kernel::Farrow8 => no_table(len),
        Kernel::Sinc(taps, phases) => sinc_settings::table_refusal(taps, phases, len),
    }
}
