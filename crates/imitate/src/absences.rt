// Which samples of each channel read absent taps (W7). What a block adds is proved in absent_report.
use absent_report::AbsentReport;
use variable_delay::VariableDelay;

#[derive(Clone, Copy)]
pub(crate) struct Absences {
    pub one: AbsentReport,
    pub two: AbsentReport,
}

pub(crate) fn none_absent() -> Absences {
    Absences {
        one: absent_report::nothing(),
        two: absent_report::nothing(),
    }
}

// With n frames more, before they are read: a sample's position depends on its frame and its delay alone. If one of
// them is refused the run ends, and nothing is said of absent taps.
pub(crate) fn with_block(
    before: Absences,
    channels: u8,
    one: VariableDelay,
    two: VariableDelay,
    len: usize,
    left: &[f64],
    right: &[f64],
    n: usize,
) -> Absences {
    let second_frames = if channels == 2 { n } else { 0 };
    Absences {
        one: absent_report::counted(before.one, len, one.accepted, left, n),
        two: absent_report::counted(before.two, len, two.accepted, right, second_frames),
    }
}
