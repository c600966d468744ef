// What was seen in the calls so far, and its report.
use crate::distance::{UNIT, distance};
use crate::whole::{Wide, plus, times};
use answer::Answer;
use streams::{print_decimal, write_all};

#[derive(Clone, Copy, Default)]
pub struct Seen {
    pub calls: u64,
    pub refused: u64,
    pub beyond: u64,
    pub largest: u64,
}

// One more call with its answer, where e is the exact value.
pub fn seen_too(seen: Seen, answer: Answer, e: Wide) -> Seen {
    let calls = plus(seen.calls, 1);
    match answer {
        Answer::Refused(_) => Seen {
            calls,
            refused: plus(seen.refused, 1),
            ..seen
        },
        Answer::Sample(v) => {
            let far = distance(v, e);
            let more = u64::from(far > 16 * UNIT);
            Seen {
                calls,
                beyond: plus(seen.beyond, more),
                largest: seen.largest.max(far),
                ..seen
            }
        }
    }
}

fn line(rt: &HostRuntime, text: &[u8], n: u64) {
    write_all(rt, text);
    print_decimal(rt, n);
    write_all(rt, b"\n");
}

pub fn report(rt: &HostRuntime, seen: Seen) {
    line(rt, b"calls ", seen.calls);
    line(rt, b"refused ", seen.refused);
    line(rt, b"further than 2^-50 ", seen.beyond);
    line(
        rt,
        b"largest distance, in 1 / 786432 of 2^-54: ",
        seen.largest,
    );
    line(
        rt,
        b"that is, in thousandths of 2^-54: ",
        times(seen.largest, 1000) / UNIT,
    );
}
