// Goal at u, no chunks, no focus.
#![tactic(auto, using(crate::specs::Tests::tests), unfolding(common::specs::Rows::kind_number, crate::specs::Steps::sf_step, crate::specs::Steps::use_step, crate::specs::Steps::if_found))]

ghost use Rattle.std.specs.Prelude.{◌≡◌};
ghost use Rattle.moves.specs.Steps.{sf_step, use_step};

use crate::{Lab, Move, demand};
use common::{FormKind, Refusal, Row};
use facts::Facts;
use steps::{Principal, World};

pub(crate) fn sf_step(facts: &Facts, r: Row, u: World) -> Result<Move, Refusal>
    ensures { result ≡ sf_step facts.now.rows r u }
{
    demand(r.is(FormKind::Sf), Refusal::StepMisfit)?;
    let there = facts.has_sf(u, Principal(r.left), Principal(r.right));
    demand(there, Refusal::FactAbsent)?;
    Ok(Move::Close)
}

pub(crate) fn use_step(r: Row, found: Option<Lab>) -> Result<Move, Refusal>
    ensures { result ≡ use_step r found }
{
    demand(r.is(FormKind::Atom), Refusal::StepMisfit)?;
    let clause = found.ok_or(Refusal::NoSuchNumber)?;
    Ok(Move::Aim(clause.form, clause.at))
}
