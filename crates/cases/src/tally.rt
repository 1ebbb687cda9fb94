// What came of the lines of the index, and how many there are of each kind.
ghost use Rattle.std.specs.Prelude.{◌+◌, ◌≤◌};

// What came of a line: whether judging its file gave what it wants, and, where its file was written
// back, whether that gave the file again. The flag is no part of the option: a file that is judged
// otherwise than wanted is written back all the same.
#[derive(Clone, Copy)]
pub(crate) struct Ran {
    pub(crate) as_wanted: bool,
    pub(crate) back: Option<bool>,
}

impl Ran {
    // Its file could not be judged.
    pub(crate) const FAILED: Ran = Ran {
        as_wanted: false,
        back: None,
    };
}

// How many lines of the index were run, and how many of them differ; how many files were written
// back, and how many of those changed.
#[derive(Default, Drop)]
pub(crate) struct Tally {
    pub(crate) cases: u64,
    pub(crate) differ: u64,
    pub(crate) written: u64,
    pub(crate) changed: u64,
}

impl Tally {
    pub(crate) fn count(&mut self, ran: Ran) {
        self.cases = counted(self.cases, true);
        self.differ = counted(self.differ, !ran.as_wanted);
        self.written = counted(self.written, ran.back.is_some());
        self.changed = counted(self.changed, ran.back == Some(false));
    }
}

// The count, with one more where this is so.
fn counted(count: u64, more: bool) -> u64
    ensures { result ≤ count + 1 }
{
    count.saturating_add(u64::from(more))
}
