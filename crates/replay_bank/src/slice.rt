// A slice of samples that the lines fill, and Draft's reading of it. No line can write or read outside of it.
use super::{Words, refused};
use bit_patterns::{bits_of_f32, float_of_f32};
use replay_lines::within;

pub fn put(source: &mut [f32], place: u64, bits: u32) -> Words {
    match source.get_mut(place as usize) {
        Some(sample) => {
            *sample = float_of_f32(bits);
            Words {
                first: place,
                second: u64::from(bits),
            }
        }
        None => refused(1),
    }
}

// 000's cubic_sample_f32 over the first places of the slice; the line says how many.
pub fn draft(source: &[f32], count: u64, position: f64, places: u64) -> Words {
    let end = within(places as usize, source.len());
    Words {
        first: u64::from(bits_of_f32(cubic_farrow_f32::read(&source[..end], count, position))),
        second: end as u64,
    }
}
