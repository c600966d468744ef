// The program that replays a stored list of WAV files and headers to be written (W2, W10). A line of standard input is
// a call: the code of the kind, channels, rate, the length of the buffer, what to write (0: a file of f64 samples, 1:
// one of f32 samples, 2: the header of an RF64 file, 3: that of a BW64 file) and the number of samples, then for a file
// the pattern of each sample, all in sixteen hex digits followed by a blank. For each the program writes a line: the
// refusal number, 0 for none; the length of the file, 0 if refused, or for a header the answer of `header_length_for`;
// the answer of `long_header::file_length_for`; and the bytes of the buffer, which were A5 before, in two hex digits
// each. oracle/lists/written.py makes the list from the text of document 02. An incomplete last line is ignored.
#![tactic(auto)]

mod heard; // a call from standard input
mod said; // what is written to standard output

use bit_patterns::{float_of, float_of_f32};
use heard::{Heard, hear};
use long_header::{Form, file_length_for, header_length_for, header_of};
use replay_lines::within;
use said::tell;
use sample_kind::of_code;
use wav_write::Written;

// The refusal number, 0 for none, and the length, 0 if refused.
fn answered(answer: Written) -> (u8, usize) {
    match answer {
        Written::Length(n) => (0, n),
        Written::Refused(no) => (no, 0),
    }
}

// Writes into a buffer as long as the line says, and tells what came of it: `write` answers with the refusal number, 0
// for none, and a length.
fn replay<F: FnOnce(&mut [u8]) -> (u8, usize)>(
    rt: &HostRuntime,
    heard: Heard,
    count: usize,
    write: F,
)
    requires { F.IsAlwaysCallable write }
{
    let mut out = [0xA5u8; 512];
    let room = within(heard.room, 512);
    let (refusal, length) = write(&mut out[..room]);
    let told = file_length_for(of_code(heard.kind), heard.channels, count);
    tell(rt, refusal, length, told, &out[..room]);
}

fn replay_one(rt: &HostRuntime, heard: Heard, words: [u64; 64]) {
    let kind = of_code(heard.kind);
    let channels = heard.channels;
    let rate = heard.rate;
    let n = within(heard.count, 64);
    match heard.what {
        0 => {
            let samples = words.map(float_of);
            replay(rt, heard, n, |out| {
                answered(wav_write::write(Form::Rf64, kind, channels, rate, &samples[..n], out))
            });
        }
        1 => {
            let samples = words.map(|word| float_of_f32((word % 0x1_0000_0000) as u32));
            replay(rt, heard, n, |out| {
                answered(wav_write::write_f32(Form::Rf64, kind, channels, rate, &samples[..n], out))
            });
        }
        what => {
            let form = if what == 2 { Form::Rf64 } else { Form::Bw64 };
            replay(rt, heard, heard.count, |out| {
                (
                    header_of(form, kind, channels, rate, heard.count, out),
                    header_length_for(kind, heard.count),
                )
            });
        }
    }
}

// Handles line after line. The bound is there because the language demands that a loop ends; no input is that long.
fn main(rt: HostRuntime) {
    let mut words = [0u64; 64];
    for _ in 0..u64::MAX {
        let Some(heard) = hear(&rt, &mut words) else {
            break;
        };
        replay_one(&rt, heard, words);
    }
}
