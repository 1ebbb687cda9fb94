// What judging a request file gives: the numbers that the gate program prints.
use std::fmt;

#[derive(Clone, Copy, PartialEq, Eq)]
pub(crate) struct Outcome {
    pub(crate) answer: u32,
    pub(crate) place: u32,
    pub(crate) steps: u32,
    pub(crate) column: u32,
}

impl Outcome {
    // Whether a file with this answer reads: reading refuses with 1 to 6 and 15, as the index and the gate's text number them.
    pub(crate) fn reads(self) -> bool {
        !matches!(self.answer, 1..=6 | 15)
    }
}

impl From<gatelib::Printed> for Outcome {
    fn from(printed: gatelib::Printed) -> Self {
        Outcome {
            answer: u32::from(printed.answer),
            place: printed.place,
            steps: u32::from(printed.steps),
            column: u32::from(printed.column),
        }
    }
}

impl fmt::Display for Outcome {
    fn fmt<W: fmt::Write>(&self, f: &mut fmt::Formatter<W>) -> fmt::Result {
        write!(
            f,
            "{} {} {} {}",
            self.answer, self.place, self.steps, self.column
        )
    }
}
