// What reader, checks, writer, judge and gate share: the limits of document 01, the lines of the file, the counts of a request, the answer
// of every call, and what stands at a place of a table.
#![tactic(auto)]

ghost use Rattle.std.specs.Prelude.{◌≡◌, suc, get_or, set};
ghost use Rattle.std.proofs.lemmas.List.Edits.{sets};
ghost use Rattle.scope.specs.Call.Tables.{has_room};
ghost use Rattle.scope.specs.Limits.{version_at, logic_at, extra_lines, principals_at, atoms_at, formulas_at, form_at, clauses_at, clause_at, goal_at, steps_at, step_at, end_at};

pub mod kinds;

// 'What the numbers count': what is allowed. The definitions name the same limits in scope/specs/Limits.
pub const MOST_BYTES: usize = 65536;

pub const MOST_VERSION: u16 = 2;

pub const MOST_PRINCIPALS: u16 = 16;

pub const MOST_ATOMS: u16 = 256;

pub const MOST_FORMULAS: u16 = 1024;

pub const MOST_POLICY_LINES: u16 = 128;

pub const MOST_STEPS: u16 = 2048;

pub const MOST_WORLDS: u16 = 64;

pub const MOST_CLAUSES: u16 = 256;

pub const MOST_OPEN: u16 = 256;

pub const MOST_CHUNKS: u16 = 16;

pub const MOST_STEP_NUMBER: u32 = 65535;

mod refused;
mod rows;

pub use refused::{Answer, Refusal};
pub use rows::{FormKind, Row, put_row, row_at};

// The room of each lent table: 3 numbers a formula, 1 a policy line, 2 a step.
pub const FORM_ROOM: usize = 3 * (MOST_FORMULAS as usize);

pub const POLICY_ROOM: usize = MOST_POLICY_LINES as usize;

pub const STEP_ROOM: usize = 2 * (MOST_STEPS as usize);

// Version and logic, the counts and the goal of a request, laid out for programs in other languages too. The logic is 0 for plain and 1 for
// unit; a call that is told any other number takes it for unit.
#[repr(C)]
#[derive(Clone, Copy, Default)]
pub struct Counts {
    pub version: u16,
    pub logic: u16,
    pub principals: u16,
    pub atoms: u16,
    pub formulas: u16,
    pub policy: u16,
    pub goal: u16,
    pub steps: u16,
}

// The lines of the file, counted from 1. All that follow `version=` are told from the line of `principals=`, as version 1 counts them.
pub fn version_at() -> u32
    ensures { result ≡ version_at }
{
    1
}

pub fn logic_at() -> u32
    ensures { result ≡ logic_at }
{
    2
}

// How many lines further down the lines from `principals=` on stand: one, where `logic=` stands before them.
pub fn extra_lines(version: u16) -> u32
    ensures { result ≡ extra_lines version }
{
    if version == 2 { 1 } else { 0 }
}

pub fn principals_at() -> u32
    ensures { result ≡ principals_at }
{
    2
}

pub fn atoms_at() -> u32
    ensures { result ≡ atoms_at }
{
    principals_at() + 1
}

pub fn formulas_at() -> u32
    ensures { result ≡ formulas_at }
{
    principals_at() + 2
}

// The line of formula number `i`.
pub fn form_at(i: u16) -> u32
    ensures { result ≡ form_at i }
{
    principals_at() + 3 + u32::from(i)
}

pub fn clauses_at(formulas: u16) -> u32
    ensures { result ≡ clauses_at formulas }
{
    principals_at() + 3 + u32::from(formulas)
}

// The line of policy line number `j`.
pub fn clause_at(formulas: u16, j: u16) -> u32
    ensures { result ≡ clause_at formulas j }
{
    principals_at() + 4 + u32::from(formulas) + u32::from(j)
}

pub fn goal_at(formulas: u16, clauses: u16) -> u32
    ensures { result ≡ goal_at formulas clauses }
{
    principals_at() + 4 + u32::from(formulas) + u32::from(clauses)
}

pub fn steps_at(formulas: u16, clauses: u16) -> u32
    ensures { result ≡ steps_at formulas clauses }
{
    principals_at() + 5 + u32::from(formulas) + u32::from(clauses)
}

// The line of the step behind `before` others: steps count from 1.
pub fn step_at(formulas: u16, clauses: u16, before: u16) -> u32
    ensures { result ≡ step_at formulas clauses (suc before) }
{
    principals_at() + 6 + u32::from(formulas) + u32::from(clauses) + u32::from(before)
}

// The line behind the last step.
pub fn end_at(formulas: u16, clauses: u16, steps: u16) -> u32
    ensures { result ≡ end_at formulas clauses steps }
{
    step_at(formulas, clauses, steps)
}

// Lent tables of these lengths have room for the largest counts.
#[tactic(auto, unfolding(scope::specs::Call::Tables::has_room, scope::specs::Logic::Form::both))]
pub fn has_room(forms: usize, policy: usize, steps: usize) -> bool
    ensures { result ≡ has_room forms policy steps }
{
    FORM_ROOM <= forms && POLICY_ROOM <= policy && STEP_ROOM <= steps
}

// What stands at a place of a table; past its end, what is told.
pub fn value_at<T: Copy>(table: &[T], at: usize, past: T) -> T
    ensures { result ≡ get_or table.now at past }
{
    table.get(at).copied().unwrap_or(past)
}

// A store past the end of a table changes nothing.
pub fn put_at<T: Copy>(table: &mut [T], at: usize, value: T)
    ensures { table.new ≡ set table.old at value }
{
    if at < table.len() {
        table[at] = value;
    }
}

// A text from a place on: what passes the end is not stored. Output and place stand apart, for it promises this of any place. The texts are
// short, the writer's of one byte: they go byte by byte, where a call that copies them in one piece would cost more.
#[inline(always)]
pub fn put_bytes(out: &mut [u8], at: usize, text: &[u8])
    ensures { out.new ≡ sets out.old at text.now }
{
    if out.len() <= at {
        return;
    }
    let room = out.len() - at;
    for (i, byte) in text.iter().enumerate() {
        if room <= i {
            return;
        }
        out[at + i] = *byte;
    }
}
