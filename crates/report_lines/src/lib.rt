// The lines that the registrar's programs write about files and residuals. Each function puts its text into a lent
// slice at a place and gives the place after it, as `text::put` does.
#![tactic(auto)]

mod files; // kinds and files in words
mod lines; // a residual's report
mod looked; // a file as `look` describes it
mod times; // a length in time

pub use files::{put_count, put_file, put_kind};
pub use lines::{put_channel, put_compared, put_left_over};
pub use looked::put_looked;
pub use times::put_length;
