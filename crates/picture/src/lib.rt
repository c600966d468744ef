// The picture of a residual as the text of an SVG, part by part. A program writes the head, then for each channel a
// panel, its stretches and the panel's end, and then the tail. Each function puts its text into a lent slice at a place
// and gives the place after it, as `text::put` does. All numbers are whole.
#![tactic(auto)]

mod axes; // a panel's lines and labels
mod bars; // a stretch of the samples
mod legend; // what a picture says about itself
mod names; // a file's name inside XML
mod page; // the head and the tail
mod panel; // a channel's beginning and end

pub use bars::{bits, put_stretch};
pub use page::{put_head, put_tail};
pub use panel::{put_panel, put_panel_end};
