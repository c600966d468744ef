// W12. The samples in the data of an AIFF file, high byte first: one channel written to a lent slice, frame by frame. A
// stored number means the same as in Wish 1.
#![tactic(auto)]

mod by_frame; // the loops over the frames, into any type
pub mod filling;
mod places; // the bytes of a sample whose place is known to lie in the part
