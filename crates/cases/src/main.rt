// Judges the request files that the file `index` names, and compares what comes back with what the
// index wants; each file that reads is also written back and compared with itself. A line for each
// difference, and at the end how many there are.
#![tactic(auto)]

mod back;
mod index;
mod outcome;
mod report;
mod tally;

ghost use Rattle.std.specs.Prelude.{◌≤◌, length, IfSome};
ghost use Rattle.std.specs.Io.KnownBytes.{Consumes};

use index::Case;
use outcome::Outcome;
use std::fs::File;
use std::io;
use std::io::Read;
use std::rt::Files;
use tally::{Ran, Tally};

// One byte past the longest file tells that a file is longer.
const MOST_READ: usize = 65_537;

fn main(rt: HostRuntime) -> io::Result<()> {
    let mut room = [0u8; MOST_READ];
    let index = read_file(&rt, b"index", &mut room);
    let mut tally = Tally::default();
    // An index that fills its room may be longer, and the cases past its end would never be run.
    let Some(text) = index.filter(|text| !text.is_empty() && text.len() < MOST_READ) else {
        report::trouble(&rt, b"index", "missing, empty or too long")?;
        tally.differ = 1;
        return report::totals(&rt, &tally);
    };
    for line in text.split_inclusive(|byte| *byte == b'\n') {
        tally.count(run_line(&rt, line)?);
    }
    report::totals(&rt, &tally)
}

// Runs the request file that this line of the index names. A line without its LF may have lost a part, so it is not run.
fn run_line(rt: &(impl Files + Print), line: &[u8]) -> io::Result<Ran> {
    let Some(line) = line.strip_suffix(b"\n") else {
        report::trouble(rt, line, "line of the index without LF")?;
        return Ok(Ran::FAILED);
    };
    let Some(case) = index::case_of(line) else {
        report::trouble(rt, line, "malformed line of the index")?;
        return Ok(Ran::FAILED);
    };
    let mut room = [0u8; MOST_READ];
    let Some(file) = read_file(rt, case.name, &mut room) else {
        report::trouble(rt, case.name, "cannot be opened")?;
        return Ok(Ran::FAILED);
    };
    run_case(rt, &case, file)
}

// Judges the request file, and writes it back where it should read.
fn run_case(rt: &impl Print, case: &Case<'_>, file: &[u8]) -> io::Result<Ran> {
    let got = Outcome::from(gatelib::gate(file));
    if got != case.wanted {
        report::difference(rt, case.name, case.wanted, got)?;
    }
    let back = case.wanted.reads().then(|| back::is_written_back(file));
    if back == Some(false) {
        report::trouble(rt, case.name, "not written back as it stands")?;
    }
    Ok(Ran {
        as_wanted: got == case.wanted,
        back,
    })
}

// Reads the start of a file, as much as there is room for, where it can be opened.
fn read_file<'a>(files: &impl Files, name: &[u8], room: &'a mut [u8]) -> Option<&'a [u8]>
    ensures { IfSome result (λ text. length text.now ≤ length room.old) }
{
    let path = str::from_utf8(name).ok()?;
    let mut file = File::open(files, path).ok()?;
    Some(read_start(&mut file, room))
}

// Reads until the room is full, the input ends or a read fails, and answers what was read. A loop,
// since std's `read_to_end` needs a heap and its `read_exact` does not say how much it read.
fn read_start<'a, R: Read>(from: &mut R, room: &'a mut [u8]) -> &'a [u8]
    ensures bound { length result.now ≤ length room.old }
    ensures consumed { Consumes (R.remaining from.old) (R.remaining from.new) result.now }
{
    let mut length = 0;
    while length < room.len() {
        let Ok(more) = from.read(&mut room[length..]) else {
            break;
        };
        if more == 0 {
            break;
        }
        length += more;
    }
    &room[..length]
}
