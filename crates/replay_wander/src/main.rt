// The program that replays a stored list of the original's answers: runs of its ModulationEngine (O5).
// A line of standard input is a letter, a blank and three words of sixteen hex digits. Answers stand among them and are
// compared here bit for bit (docs/ORACLE.md has the letters). oracle/src/lists/wander.rs makes the list. Where a star
// stands for the blank, a bit of the answer was changed on purpose: such a line must differ. A line that differs and
// has no star is named. A trailing part is ignored.
#![tactic(auto)]

mod calls; // the engine's calls, and what each hands out
mod counts; // how many lines were read, and how many of them differ
mod engine_letters; // the letters of the engine's calls
mod letters; // the letters of its settings and its state
mod lines; // a line, and what it is compared with

use calls::opened_first;
use counts::{Seen, counted};
use letters::Player;
use lines::heard;
use modulation_params::default_params;
use replay_lines::Line;
use streams::{print_decimal, read_full, write_all};

#[derive(Clone, Copy)]
struct Course {
    player: Player,
    seen: Seen,
}

fn tell(rt: &HostRuntime, text: &[u8], n: u64) {
    write_all(rt, text);
    print_decimal(rt, n);
    write_all(rt, b"\n");
}

fn replay(rt: &HostRuntime, before: Course, line: Line) -> Course {
    let verdict = heard(before.player, line);
    let seen = counted(before.seen, verdict);
    if seen.different != before.seen.different {
        tell(rt, b"differs: line ", seen.lines);
    }
    Course {
        player: verdict.player,
        seen,
    }
}

// The next 53 bytes, a line, if there are so many.
fn hear(rt: &HostRuntime) -> Option<Line> {
    let mut text = [0u8; 53];
    let n = read_full(rt, &mut text);
    let heard = replay_lines::line_heard(n, &text);
    if heard.whole { Some(heard.line) } else { None }
}

// Goes line after line. The bound is there because the language demands that a loop ends; no input is that long.
fn run(rt: &HostRuntime, start: Course) -> Seen {
    let mut course = start;
    for _ in 0..u64::MAX {
        let Some(line) = hear(rt) else {
            break;
        };
        course = replay(rt, course, line);
    }
    course.seen
}

fn main(rt: HostRuntime) {
    let start = Course {
        player: Player {
            engine: opened_first(),
            params: default_params(),
        },
        seen: Seen::default(),
    };
    let seen = run(&rt, start);
    tell(&rt, b"answers compared: ", seen.compared);
    tell(&rt, b"of these different: ", seen.different);
    tell(&rt, b"changed on purpose: ", seen.changed);
    tell(&rt, b"of these different: ", seen.noticed);
}
