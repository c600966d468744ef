// How many lines were read, and how many of them differ.
use crate::lines::Verdict;

// The lines that were read, those with an answer (without and with a star), and how many of these differ.
#[derive(Clone, Copy, Default)]
pub struct Seen {
    pub lines: u64,
    pub compared: u64,
    pub different: u64,
    pub changed: u64,
    pub noticed: u64,
}

fn one_more(n: u64, by: bool) -> u64 {
    n.saturating_add(u64::from(by))
}

pub fn counted(before: Seen, verdict: Verdict) -> Seen {
    let lines = one_more(before.lines, true);
    match verdict.differs {
        None => Seen { lines, ..before },
        Some(wrong) if verdict.star => Seen {
            lines,
            changed: one_more(before.changed, true),
            noticed: one_more(before.noticed, wrong),
            ..before
        },
        Some(wrong) => Seen {
            lines,
            compared: one_more(before.compared, true),
            different: one_more(before.different, wrong),
            ..before
        },
    }
}
