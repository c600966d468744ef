// The numbers of document 01 that several crates name.
// Code takes them from here, definitions from specs/Numbers.antt.

#![tactic(auto)]

// 2^36: the largest number of samples that a reader accepts, and the largest delay (01, 'Ranges').
pub const LIMIT: u64 = 68719476736;

pub const LIMIT_F64: f64 = 68719476736.0;

// How many f32 one set of a bank has: 163920 for Normal, 393312 for Hq, 524416 for Ultra (T3).
pub const SET_LENGTH: usize = 1081648;
