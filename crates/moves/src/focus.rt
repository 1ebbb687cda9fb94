// In focus on a clause at u, aiming at an atom at w.
#![tactic(auto, using(crate::specs::Tests::tests), unfolding(common::specs::Rows::kind_number, crate::specs::Steps::to_imp, crate::specs::Steps::to_says, crate::specs::Steps::to_step, crate::specs::Steps::hit_step))]

ghost use Rattle.std.specs.Prelude.{◌≡◌};
ghost use Rattle.moves.specs.Steps.{to_imp, to_says, to_step, hit_step};

use crate::judging::Sequent;
use crate::{Move, demand};
use common::{FormKind, MOST_OPEN, Refusal, Row};
use facts::Facts;
use steps::{Principal, World};

fn to_imp(s: &Sequent, r: Row, u: World, v: World) -> Result<Move, Refusal>
    ensures { result ≡ to_imp s.now.facts.now.rows r u v s.now.worlds s.now.opened }
{
    demand(v.0 < s.worlds, Refusal::NoSuchNumber)?;
    demand(s.facts.has_le(u, v), Refusal::FactAbsent)?;
    demand(s.opened < MOST_OPEN, Refusal::LimitPassed)?;
    Ok(Move::Meet(r.left, r.right, v))
}

fn to_says(s: &Sequent, r: Row, u: World, w: World) -> Result<Move, Refusal>
    ensures { result ≡ to_says s.now.facts.now.rows r u w s.now.worlds }
{
    demand(w.0 < s.worlds, Refusal::NoSuchNumber)?;
    demand(s.facts.has_by(Principal(r.left), u, w), Refusal::FactAbsent)?;
    Ok(Move::Aim(r.right, w))
}

pub(crate) fn to_step(s: &Sequent, r: Row, u: World, v: World) -> Result<Move, Refusal>
    ensures { result ≡ to_step s.now.facts.now.rows r u v s.now.worlds s.now.opened }
{
    if r.is(FormKind::Imp) {
        to_imp(s, r, u, v)
    } else if r.is(FormKind::Says) {
        to_says(s, r, u, v)
    } else {
        Err(Refusal::StepMisfit)
    }
}

// The target's atom by its number: two formulas may be the same atom.
pub(crate) fn hit_step(
    facts: &Facts,
    r: Row,
    u: World,
    atom: u16,
    w: World,
) -> Result<Move, Refusal>
    ensures { result ≡ hit_step facts.now.rows r u atom w }
{
    demand(r.is(FormKind::Atom), Refusal::StepMisfit)?;
    demand(r.left == atom, Refusal::FactAbsent)?;
    demand(facts.has_le(u, w), Refusal::FactAbsent)?;
    Ok(Move::Close)
}
