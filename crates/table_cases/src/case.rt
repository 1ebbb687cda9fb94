// A case: P1 with one thing changed, lent to writer and judge, or to the writer alone.
use crate::tables::{Edit, Lent, Sizes, Tables, front};
use common::Counts;
use std::io;
use writer::Writing;

// The counts of P1, lines 2 to 4, 10, 14 and 15 of its text.
pub(crate) const P1: Counts = Counts {
    version: 1,
    logic: 0,
    principals: 2,
    atoms: 1,
    formulas: 5,
    policy: 3,
    goal: 0,
    steps: 7,
};

// The longest text that the writer gives.
const MOST_BYTES: usize = 65_536;

#[derive(Clone, Copy)]
pub(crate) struct Case {
    name: &'static str,
    counts: Counts,
    sizes: Sizes,
    edit: Edit,
    // How long the output is that the writer alone is lent.
    room: Option<usize>,
}

impl Case {
    pub(crate) fn new(name: &'static str) -> Case {
        Case {
            name,
            counts: P1,
            sizes: Sizes::EXACT,
            edit: Edit::Nothing,
            room: None,
        }
    }

    pub(crate) fn principals(mut self, principals: u16) -> Case {
        self.counts.principals = principals;
        self
    }

    pub(crate) fn atoms(mut self, atoms: u16) -> Case {
        self.counts.atoms = atoms;
        self
    }

    pub(crate) fn formulas(mut self, formulas: u16) -> Case {
        self.counts.formulas = formulas;
        self
    }

    pub(crate) fn policy(mut self, policy: u16) -> Case {
        self.counts.policy = policy;
        self
    }

    pub(crate) fn goal(mut self, goal: u16) -> Case {
        self.counts.goal = goal;
        self
    }

    pub(crate) fn steps(mut self, steps: u16) -> Case {
        self.counts.steps = steps;
        self
    }

    // Told with another version and logic.
    pub(crate) fn told(mut self, version: u16, logic: u16) -> Case {
        self.counts.version = version;
        self.counts.logic = logic;
        self
    }

    pub(crate) fn sizes(mut self, sizes: Sizes) -> Case {
        self.sizes = sizes;
        self
    }

    pub(crate) fn edit(mut self, edit: Edit) -> Case {
        self.edit = edit;
        self
    }

    pub(crate) fn room(mut self, room: usize) -> Case {
        self.room = Some(room);
        self
    }

    // Prints the writer's answer, and the judge's in a line of its own where it is another.
    fn run(&self, to: &impl Print) -> io::Result<()> {
        let tables = Tables::edited(self.edit);
        let lent = tables.lent(self.sizes);
        let mut out = [1u8; MOST_BYTES];
        let room = self.room.unwrap_or(MOST_BYTES).min(MOST_BYTES);
        let written = self.write(to, lent, &mut out[..room])?;
        if self.room.is_some() {
            return Ok(());
        }
        let judged = judge::judge(self.counts, lent.forms, lent.policy, lent.steps);
        if judged.refusal == written.refusal && judged.place == written.place {
            return Ok(());
        }
        println!(to; "judge {} {} {}", self.name, judged.refusal, judged.place)
    }

    // Prints the writer's answer, and a line more where the output is not what the answer says.
    fn write(&self, to: &impl Print, lent: Lent<'_>, out: &mut [u8]) -> io::Result<Writing> {
        let name = self.name;
        let written = writer::write(self.counts, lent.forms, lent.policy, lent.steps, out);
        println!(to; "{name} {} {}", written.refusal, written.place)?;
        // What is written tells a refusal by its number, as other languages see it, and so do the lines here.
        if written.refusal != 0 && written.length != 0 {
            println!(to; "{name}: a length after a refusal")?;
        }
        if out.iter().skip(written.length).any(|byte| *byte != 0) {
            println!(to; "{name}: not zero behind the text")?;
        }
        let text = front(out, written.length);
        if written.refusal == 0 && !reads_back(text, lent) {
            println!(to; "{name}: not read back")?;
        }
        Ok(written)
    }
}

pub(crate) fn run_all(to: &impl Print, cases: &[Case]) -> io::Result<()> {
    cases.iter().try_for_each(|case| case.run(to))
}

// Whether the text reads as these tables, as far as the largest counts go.
fn reads_back(text: &[u8], lent: Lent<'_>) -> bool {
    let mut forms = [1u16; 3072];
    let mut policy = [1u16; 128];
    let mut steps = [1u16; 4096];
    reader::read_request(text, &mut forms, &mut policy, &mut steps).is_ok()
        && lent.forms.starts_with(&forms)
        && lent.policy.starts_with(&policy)
        && lent.steps.starts_with(&steps)
}
