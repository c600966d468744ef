// The tables of both widths, built from the same settings.
use crate::elements::{set, write};
use crate::lines::{Player, Shape, say};
use bit_patterns::{bits_of, float_of};
use replay_lines::{Line, refused, table_part};
use sinc_settings::Settings;

// `s` sets the taps, the phases and beta for the lines that follow.
fn shaped(rt: &HostRuntime, before: Player, line: Line) -> Player {
    say(rt, 0, 0);
    Player {
        shape: Shape {
            taps: line.a as usize,
            phases: line.b as usize,
            beta: float_of(line.c),
        },
        state: before.state,
    }
}

fn built(kernel: windowed_sinc::Built) -> u64 {
    match kernel {
        windowed_sinc::Built::Kernel(k) => bits_of(k.cutoff),
        windowed_sinc::Built::Refused(no) => refused(no),
    }
}

fn built_f32(kernel: windowed_sinc_f32::Built) -> u64 {
    match kernel {
        windowed_sinc_f32::Built::Kernel(k) => k.phases as u64,
        windowed_sinc_f32::Built::Refused(no) => refused(no),
    }
}

// `n` is `new` with a cutoff.
fn settings(shape: Shape, line: Line) -> Settings {
    Settings {
        taps: shape.taps,
        phases: shape.phases,
        cutoff: float_of(line.a),
        beta: shape.beta,
    }
}

// `m` is `for_max_rate` with a rate and a passband.
fn build(shape: Shape, table: &mut [f64], line: Line) -> u64 {
    if line.letter == b'n' {
        return built(windowed_sinc::new(settings(shape, line), table));
    }
    let rate = float_of(line.a);
    let passband = float_of(line.b);
    built(windowed_sinc::for_max_rate(shape.taps, shape.phases, rate, passband, shape.beta, table))
}

fn build_f32(shape: Shape, table: &mut [f32], line: Line) -> u64 {
    if line.letter == b'n' {
        return built_f32(windowed_sinc_f32::new(settings(shape, line), table));
    }
    let rate = float_of(line.a);
    let passband = float_of(line.b);
    built_f32(windowed_sinc_f32::for_max_rate(
        shape.taps,
        shape.phases,
        rate,
        passband,
        shape.beta,
        table,
    ))
}

fn called(rt: &HostRuntime, shape: Shape, table: &mut [f64], table_f32: &mut [f32], line: Line) {
    if line.letter == b'e' {
        set(rt, table, table_f32, line);
        return;
    }
    let a = build(shape, table, line);
    let b = build_f32(shape, table_f32, line);
    say(rt, a, b);
    write(rt, &table[..], &table_f32[..]);
}

// A call about the tables, with the parts of them that the settings take.
pub fn call(
    rt: &HostRuntime,
    before: Player,
    table: &mut [f64],
    table_f32: &mut [f32],
    line: Line,
) -> Player {
    if line.letter == b's' {
        return shaped(rt, before, line);
    }
    let shape = before.shape;
    let end = table_part(shape.taps, shape.phases, table.len());
    let to = table_part(shape.taps, shape.phases, table_f32.len());
    called(rt, shape, &mut table[..end], &mut table_f32[..to], line);
    before
}
