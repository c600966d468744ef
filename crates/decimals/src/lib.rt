// Numbers as decimal text, written and read, for the programs' arguments and lines.
// `text::put_decimal` writes one word; here are numbers of two words, for the sum of squares (W13d), and reading.
#![tactic(auto)]

mod fractions; // reading fractions: a sign, digits, a point
mod reading; // reading whole numbers: digits only
mod writing; // writing numbers of two words

pub use fractions::read_f64;
pub use reading::read_u64;
pub use writing::put_u128;
