// Chunks, the latest on top.
#![tactic(auto, using(crate::specs::Tests::tests), unfolding(common::specs::Rows::kind_number, crate::specs::Steps::pushed_kind, crate::specs::Steps::push_step))]

ghost use Rattle.std.specs.Prelude.{◌≡◌};
ghost use Rattle.moves.specs.Steps.{pushed_kind, push_step};

use crate::{Move, demand};
use common::{FormKind, MOST_CLAUSES, Refusal, Row};

// An atom, `imp` or `says`.
fn is_pushed(r: Row) -> bool
    ensures { result ≡ pushed_kind r.kind }
{
    r.is(FormKind::Atom) || r.is(FormKind::Imp) || r.is(FormKind::Says)
}

pub(crate) fn push_step(r: Row, clauses: u16) -> Result<Move, Refusal>
    ensures { result ≡ push_step r clauses }
{
    demand(is_pushed(r), Refusal::StepMisfit)?;
    demand(clauses < MOST_CLAUSES, Refusal::LimitPassed)?;
    Ok(Move::Push)
}
