// What the program prints.
use crate::outcome::Outcome;
use crate::tally::Tally;
use std::io;

pub(crate) fn difference(
    to: &impl Print,
    name: &[u8],
    wanted: Outcome,
    got: Outcome,
) -> io::Result<()> {
    to.write_all(name)?;
    println!(to; ": wanted {wanted}, got {got}")
}

// A case that could not be compared counts as one that differs, and this says why.
pub(crate) fn trouble(to: &impl Print, name: &[u8], why: &str) -> io::Result<()> {
    to.write_all(name)?;
    println!(to; ": {why}")
}

pub(crate) fn totals(to: &impl Print, tally: &Tally) -> io::Result<()> {
    println!(to; "{} cases, {} differ", tally.cases, tally.differ)?;
    println!(to; "{} written back, {} differ", tally.written, tally.changed)
}
