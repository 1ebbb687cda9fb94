// The tables of P1 with one thing changed.

// Lent tables have numbers, and the cases lend some that no kind has.
// p0, 0 says p0, (0 says p0) imp p0, 1 sf 0 and 1 says p0.
const FORMS: [u16; 15] = [0, 0, 0, 6, 0, 0, 5, 1, 0, 7, 1, 0, 6, 1, 0];

const POLICY: [u16; 3] = [2, 3, 4];
// use 0, to 0, hit, says, use 2, to 1, hit.
const STEPS: [u16; 14] = [7, 0, 10, 0, 11, 0, 4, 0, 7, 2, 10, 1, 11, 0];

// What is changed: the three entries of a formula, one entry of a table, or two formulas added of
// which the last is no goal, since it goes from `says` of an `sf`.
#[derive(Clone, Copy)]
pub(crate) enum Edit {
    Nothing,
    Row(usize, [u16; 3]),
    Form(usize, u16),
    Line(usize, u16),
    Step(usize, u16),
    NoChunk,
}

// How many entries of each table are lent.
#[derive(Clone, Copy)]
pub(crate) struct Sizes {
    pub(crate) forms: usize,
    pub(crate) policy: usize,
    pub(crate) steps: usize,
}

impl Sizes {
    // What the largest counts need.
    pub(crate) const EXACT: Sizes = Sizes {
        forms: 3072,
        policy: 128,
        steps: 4096,
    };

    pub(crate) const LONGER: Sizes = Sizes {
        forms: 3073,
        policy: 129,
        steps: 4097,
    };

    pub(crate) const FORMS_SHORT: Sizes = Sizes {
        forms: 3071,
        ..Sizes::EXACT
    };

    pub(crate) const POLICY_SHORT: Sizes = Sizes {
        policy: 127,
        ..Sizes::EXACT
    };

    pub(crate) const STEPS_SHORT: Sizes = Sizes {
        steps: 4095,
        ..Sizes::EXACT
    };
}

// The tables, with room for the longest that are lent.
#[derive(Drop)]
pub(crate) struct Tables {
    forms: [u16; 3073],
    policy: [u16; 129],
    steps: [u16; 4097],
}

#[derive(Clone, Copy)]
pub(crate) struct Lent<'a> {
    pub(crate) forms: &'a [u16],
    pub(crate) policy: &'a [u16],
    pub(crate) steps: &'a [u16],
}

impl Tables {
    pub(crate) fn edited(edit: Edit) -> Tables {
        let mut forms = [0; 3073];
        let mut policy = [0; 129];
        let mut steps = [0; 4097];
        put(&mut forms, 0, &FORMS);
        put(&mut policy, 0, &POLICY);
        put(&mut steps, 0, &STEPS);
        match edit {
            Edit::Nothing => {}
            Edit::Row(at, row) => put(&mut forms, at, &row),
            Edit::Form(at, value) => put(&mut forms, at, &[value]),
            Edit::Line(at, value) => put(&mut policy, at, &[value]),
            Edit::Step(at, value) => put(&mut steps, at, &[value]),
            Edit::NoChunk => put(&mut forms, 15, &[6, 0, 3, 5, 5, 0]),
        }
        Tables {
            forms,
            policy,
            steps,
        }
    }

    pub(crate) fn lent(&self, sizes: Sizes) -> Lent<'_> {
        Lent {
            forms: front(&self.forms, sizes.forms),
            policy: front(&self.policy, sizes.policy),
            steps: front(&self.steps, sizes.steps),
        }
    }
}

// The first so many entries, or all where there are fewer.
pub(crate) fn front<T>(entries: &[T], count: usize) -> &[T] {
    entries.get(..count).unwrap_or(entries)
}

// Puts the values into the table from there on, where they fit.
fn put(table: &mut [u16], at: usize, values: &[u16]) {
    if let Some(rest) = table.get_mut(at..)
        && let Some(part) = rest.get_mut(..values.len())
    {
        part.copy_from_slice(values);
    }
}
