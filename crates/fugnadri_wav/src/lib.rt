// WAV files read as plain numbers, RIFF, and from their headers RF64 and BW64 (W1, W10): what the static library
// fugnadri_wav_c exports for C and Rust. There is no enum and no struct. Each function accepts every input, and its
// contract is that of the function it calls.
#![tactic(auto)]

pub mod files; // a whole file
pub mod headers; // a file of any length from its first bytes
pub mod samples; // the samples of a channel
pub mod turns; // a header step by step
