// The static library that writes WAV files with up to 2^40 bytes of samples, for C and Rust (W2, W10). Numbers are
// passed by value, a slice as a pointer and a length, a `&mut` number as a pointer; there is no enum and no struct.
// Each function accepts every input, and its contract is that of the function it calls. The code of a kind that is none
// of the three, and that of a form that is none of the two, are refused here.
#![tactic(auto)]

mod codes; // which codes are known
pub mod files; // a whole file
pub mod parts; // a file's header and its samples apart
