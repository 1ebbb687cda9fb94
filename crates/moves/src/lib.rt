// The eighteen steps, each judged on small values: the phase of the current obligation, the row of its formula, the facts, the counts.
#![tactic(auto, using(crate::specs::Tests::tests))]

ghost use Rattle.std.specs.Prelude.{◌≡◌, true, false, MatchResult, eqb, leb};
ghost use Rattle.common.specs.Rows.{kind_number};
ghost use Rattle.moves.specs.Steps.{pick};

use common::{FormKind, Refusal, Row};
use steps::{Principal, World};

mod chunk;
mod focus;
mod goal;
pub mod judging;

// A formula, by its number, at a world.
#[derive(Clone, Copy)]
pub struct Lab {
    pub form: u16,
    pub at: World,
}

// A goal; a goal behind a number of chunks; a focus on a part of a clause, aiming at a target, which is an atom.
#[derive(Clone, Copy)]
pub enum Phase {
    Goal(Lab),
    Chunks(Lab, u16),
    Focus(Lab, Lab),
}

// What a step that fits does to the current obligation.
#[derive(Clone, Copy)]
pub enum Move {
    // It is closed.
    Close,
    // The formula is the goal, at the goal's world.
    Go(u16),
    // The focus goes to the formula at the world.
    Aim(u16, World),
    // Two goals at the goal's world take its place, the first one first.
    Both(u16, u16),
    // The first formula at the world is a subgoal, and the focus goes to the second there.
    Meet(u16, u16, World),
    // A new world behind the goal's by ≤, where the first formula is a chunk and the second the goal.
    Less(u16, u16),
    // A new world behind the goal's by S of the principal, where the formula is the goal.
    Speak(Principal, u16),
    // The topmost chunk is pushed as a clause, or dropped, or noted.
    Push,
    Drop,
    Note(Principal, Principal),
    // The topmost chunk gives way to two, the first on top.
    Split(u16, u16),
    // Two branches, with the first formula and with the second in the topmost chunk's place.
    Case(u16, u16),
}

// What a step asks, and the refusal where it is not so. Crate `checks` asks so too, and promises the number of the refusal: goals here want
// the two cases.
fn demand(met: bool, refusal: Refusal) -> Result<(), Refusal>
    ensures { MatchResult result (λ _. met ≡ true) (λ e. (met ≡ false) × (e ≡ refusal)) }
{
    if met { Ok(()) } else { Err(refusal) }
}

// A step that asks for a formula of one kind alone,
fn on_kind(r: Row, kind: FormKind, m: Move) -> Result<Move, Refusal>
    ensures { result ≡ pick (eqb r.kind (kind_number kind)) (Ok m) (Err Refusal.StepMisfit) }
{
    demand(r.is(kind), Refusal::StepMisfit)?;
    Ok(m)
}

// and one that makes one more of what there may be `most` of.
fn with_room(r: Row, kind: FormKind, count: u16, most: u16, m: Move) -> Result<Move, Refusal>
    ensures { result ≡ pick (eqb r.kind (kind_number kind)) (pick (leb most count) (Err Refusal.LimitPassed) (Ok m)) (Err Refusal.StepMisfit) }
{
    demand(r.is(kind), Refusal::StepMisfit)?;
    demand(count < most, Refusal::LimitPassed)?;
    Ok(m)
}
