// T3, T4. The sets of a bank and the choice among them, each in two words.
use super::{Words, packed};
use bit_patterns::{bits_of, bits_of_f32};

fn small(n: usize) -> u8 {
    (n % 256) as u8
}

// The rate of a set, counted from 0, and how many sets there are.
pub fn rate(max_rate: f64, set: u64) -> Words {
    Words {
        first: bits_of(bank_choice::set_rate(max_rate, set as usize)),
        second: bank_choice::steps(max_rate) as u64,
    }
}

// Which sets a rate reads, and the blend if it reads both; otherwise the original has no blend.
pub fn choice(max_rate: f64, rate: f64) -> Words {
    let c = bank_choice::choice_or_zero(max_rate, rate);
    Words {
        first: packed(small(c.safe), small(c.tighter), c.which),
        second: if c.which == 2 {
            u64::from(bits_of_f32(c.blend))
        } else {
            0
        },
    }
}
