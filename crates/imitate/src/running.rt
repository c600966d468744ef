// `imitate` over open files: each channel is read back at its wandering delay, as `render` reads it, block after block.
// What a channel of a block becomes is proved in heard_channel, its delays in imitation, and what is stored in
// wav_store.
use crate::absences::{Absences, none_absent, with_block};
use crate::hearing::hear;
use crate::storing::store;
use asked::Imitation;
use modulation_engine::ModulationEngine;
use outcomes::{Outcome, broken, is_well, refused_at, well};
use sample_kind::SampleKind;
use sinc_settings::Settings;
use sizes::plus;
use system::System;
use variable_delay::VariableDelay;
use wave_file::WaveFile;

// The number of frames in a block.
const FRAMES: usize = 4096;

// The file that is read, the kind of sample that is written, and the descriptor that it is written to.
#[derive(Clone, Copy)]
pub(crate) struct Job {
    pub file: WaveFile,
    pub kind: SampleKind,
    pub fd: i32,
    pub settings: Imitation,
}

// The engine, and a reader for each channel.
#[derive(Clone, Copy)]
pub(crate) struct Sides {
    pub engine: ModulationEngine,
    pub one: VariableDelay,
    pub two: VariableDelay,
}

// How a run ended, and which samples read absent taps.
#[derive(Clone, Copy)]
pub(crate) struct Ran {
    pub outcome: Outcome,
    pub absent: Absences,
}

#[derive(Clone, Copy)]
struct Turn {
    sides: Sides,
    outcome: Outcome,
    absent: Absences,
}

#[derive(Clone, Copy)]
struct Read {
    sides: Sides,
    outcome: Outcome,
}

// The sizes are those of `render`: rings of 65536, which hold delays up to 65528, and a table of 65 rows of 32.
pub(crate) fn imitate(system: &System, job: Job) -> Ran {
    let mut ring = [0.0f32; 65536];
    let mut second = [0.0f32; 65536];
    let mut table = [0.0f32; 2080];
    let variable_delay::Opened::Reader(one) = variable_delay_f32::open(65528, 0, &mut ring) else {
        return unread(1);
    };
    let variable_delay::Opened::Reader(two) = variable_delay_f32::open(65528, 0, &mut second) else {
        return unread(2);
    };
    let windowed_sinc_f32::Built::Kernel(_) = windowed_sinc_f32::new(
        Settings {
            taps: 32,
            phases: 64,
            cutoff: 1.0,
            beta: 12.0,
        },
        &mut table,
    ) else {
        return unread(1);
    };
    let modulation_engine::Opened::Engine(engine) = ModulationEngine::new(
        job.file.rate as f64,
        job.settings.seed,
    ) else {
        return unread(1);
    };
    let start = Sides { engine, one, two };
    run(system, job, start, &mut ring, &mut second, &table)
}

// A channel whose reader, table or delays could not be opened is refused at its first frame.
fn unread(channel: u8) -> Ran {
    Ran {
        outcome: refused_at(1, 0, channel),
        absent: none_absent(),
    }
}

// Block after block. The rings are arrays, so that their lengths are those that the readers were opened with.
fn run<'a>(
    system: &System,
    job: Job,
    start: Sides,
    ring: &mut [f32; 65536],
    second: &mut [f32; 65536],
    table: &'a [f32; 2080],
) -> Ran {
    let frames = job.file.frames;
    let mut sides = start;
    let mut absent = none_absent();
    let mut said: i64 = 0;
    for done in (0..frames).step_by(FRAMES) {
        let n = (frames - done).min(FRAMES);
        let turn = block(system, job, sides, absent, ring, second, table, done, n);
        let outcome = turn.outcome;
        if !is_well(outcome) {
            return Ran { outcome, absent };
        }
        sides = turn.sides;
        absent = turn.absent;
        said = tell(system, done + n, frames, said);
    }
    Ran {
        outcome: well(),
        absent,
    }
}

// Shows how far the run is, if standard error is a terminal.
fn tell(system: &System, done: usize, frames: usize, said: i64) -> i64 {
    let terminal = system.is_terminal();
    let second = system.second();
    progress::tell(system, b"imitate", done, frames, terminal, said, second)
}

// Computes the delays of one block's frames, then which of its samples read absent taps and what its bytes become.
fn block<'a>(
    system: &System,
    job: Job,
    sides: Sides,
    before: Absences,
    ring: &mut [f32],
    second: &mut [f32],
    table: &'a [f32],
    done: usize,
    n: usize,
) -> Turn {
    let mut left = [0.0f64; FRAMES];
    let mut right = [0.0f64; FRAMES];
    let settings = job.settings;
    let wandered = imitation::wander(
        sides.engine,
        settings.params,
        settings.delay,
        &mut left,
        &mut right,
    );
    let absent = with_block(
        before,
        job.file.channels,
        sides.one,
        sides.two,
        ring.len(),
        &left,
        &right,
        n,
    );
    let engine = wandered.engine;
    let turned = Sides { engine, ..sides };
    let read = read_block(
        system, job, turned, ring, second, table, &left, &right, done, n,
    );
    Turn {
        sides: read.sides,
        outcome: read.outcome,
        absent,
    }
}

// Computes what the bytes of n frames become, after `done` frames. What is written replaces what was read in the same
// bytes.
fn read_block<'a>(
    system: &System,
    job: Job,
    sides: Sides,
    ring: &mut [f32],
    second: &mut [f32],
    table: &'a [f32],
    left: &[f64],
    right: &[f64],
    done: usize,
    n: usize,
) -> Read {
    let mut bytes = [0u8; 32768];
    let mut both = [0.0f32; 8192];
    let file = job.file;
    let io = wave_file::read_frames(system, file, done, &mut bytes, n);
    if io != 0 {
        return Read {
            sides,
            outcome: broken(io),
        };
    }
    let heard = hear(
        file, sides, ring, second, table, &bytes, n, left, right, &mut both,
    );
    let outcome = if heard.number != 0 {
        refused_at(heard.number, plus(done, heard.done), heard.channel)
    } else {
        store(
            system,
            job.fd,
            job.kind,
            file.channels,
            &both,
            &mut bytes,
            done,
            n,
        )
    };
    Read {
        sides: heard.sides,
        outcome,
    }
}
