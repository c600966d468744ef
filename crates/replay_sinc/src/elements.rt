// The elements of the tables of both widths, set one by one and written as patterns.
use crate::lines::say;
use bit_patterns::{bits_of, bits_of_f32, float_of, float_of_f32};
use replay_lines::Line;

// The f32 whose pattern is the lower half of a word.
pub fn single(n: u64) -> f32 {
    float_of_f32((n % 0x1_0000_0000) as u32)
}

pub fn write(rt: &HostRuntime, table: &[f64], table_f32: &[f32]) {
    for (at, x) in table.iter().enumerate() {
        let beside = table_f32.get(at).map_or(0, |y| u64::from(bits_of_f32(*y)));
        say(rt, bits_of(*x), beside);
    }
}

fn put<T: Drop>(table: &mut [T], at: usize, x: T) {
    if let Some(element) = table.get_mut(at) {
        *element = x;
    }
}

// `e` sets an element of both tables.
pub fn set(rt: &HostRuntime, table: &mut [f64], table_f32: &mut [f32], line: Line) {
    put(table, line.a as usize, float_of(line.b));
    put(table_f32, line.a as usize, single(line.c));
    say(rt, 0, 0);
}
