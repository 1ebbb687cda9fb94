// The walk through the steps over tables of the open obligations, written in place.
#![tactic(auto)]

use common::{MOST_CHUNKS, MOST_OPEN, Refusal};
use facts::{Facts, PRINCIPALS, Row};
use moves::judging::CLAUSES;
use moves::{Lab, Phase};

mod begin;
mod blocks;
mod changes;
pub mod walking;

// Chunks of an obligation, one place for each.
pub const CHUNKS: usize = MOST_CHUNKS as usize;

// The open obligations, and one place more, which is never read; and the entries of their two tables.
const OPENED: usize = MOST_OPEN as usize + 1;

const HELD: usize = OPENED * CHUNKS;

const SAVED: usize = OPENED * PRINCIPALS;

// An open obligation: its phase, and the worlds and clauses of its sequent. Its chunks, and, where it waits, the rows of sf of its newest
// world as they stood when it was made, are in tables of their own, at its place among the open ones.
#[derive(Clone, Copy)]
pub struct Obligation {
    pub phase: Phase,
    pub worlds: u16,
    pub clauses: u16,
}

// What a move makes of the current obligation, which is the last of those opened: what stands in its place, what stands after it where one
// more is open now, and how many are open.
#[derive(Clone, Copy)]
pub struct Change {
    pub lower: Obligation,
    pub upper: Obligation,
    pub opened: u16,
}

// What the walk writes in place: the facts; the clauses; and the open obligations, the last opened of which is the current one, with their
// chunks and saved rows. These stand in tables beside each other, longer than what is open, because `State` of specs/Machine has them so, of
// which the theorem `kept_afresh` speaks; and there is no heap.
#[derive(Drop)]
struct Walk {
    facts: Facts,
    clauses: [Lab; CLAUSES],
    obligations: [Obligation; OPENED],
    chunks: [u16; HELD],
    saved: [Row; SAVED],
    opened: u16,
}

// A refusal, and the step that it names. The step is wider than a count of steps, so that the one after the last has a number for every
// count.
#[derive(Clone, Copy, Debug, PartialEq, Eq)]
pub struct StepRefusal {
    pub refusal: Refusal,
    pub step: u32,
}
