// The refusals of a row, whether it stands in a line of the file or in a lent table: 3 before 4.
#![tactic(auto)]

ghost use Rattle.std.specs.Prelude.{◌≡◌};
ghost use Rattle.scope.specs.File.Kinds.{form_kinds};
ghost use Rattle.scope.specs.File.Refusals.{demand, row_refusal, step_refusal};
ghost use Rattle.common.specs.Rows.{kind_of};
ghost use Rattle.common.specs.Refused.{refusal_in};
ghost use Rattle.refusals.specs.Rows.{row, number_carried};

use common::kinds::step_kinds;
use common::{FormKind, MOST_STEP_NUMBER, Refusal};

// 3 before 4: an unused operand that is not 0, a number outside its range, a formula that is no earlier one.
#[tactic(auto, unfolding(scope::specs::File::Refusals::demand, common::specs::Refused::refusal_in, common::specs::Refused::number_of))]
fn check_operands(unused: bool, ranges: bool, earlier: bool) -> Result<(), Refusal>
    ensures { refusal_in result ≡ demand unused 3 (demand ranges 3 (demand earlier 4 0)) }
{
    if !unused || !ranges {
        return Err(Refusal::Range);
    }
    if !earlier {
        return Err(Refusal::NotEarlier);
    }
    Ok(())
}

// The kind of a formula; none where no kind has the number.
#[tactic(auto, using(crate::proofs::Known::kind_past))]
fn form_kind(kind: usize) -> Option<FormKind>
    ensures { result ≡ kind_of kind }
{
    FormKind::of(u16::try_from(kind).ok()?)
}

// The refusal of formula number `formula`. Its numbers stand apart, for those of a line may be larger than those of a table's row.
#[tactic(auto, using(crate::proofs::Known::form_known), unfolding(scope::specs::Logic::Form::both, common::specs::Refused::refusal_in, common::specs::Refused::number_of))]
pub fn check_form(
    kind: usize,
    left: u32,
    right: u32,
    principals: u16,
    atoms: u16,
    formula: u16,
) -> Result<(), Refusal>
    ensures { refusal_in result ≡ row_refusal form_kinds principals atoms formula (row kind left right) }
{
    let p = u32::from(principals);
    let i = u32::from(formula);
    match form_kind(kind) {
        Some(FormKind::Atom) => check_operands(right == 0, left < u32::from(atoms), true),
        Some(FormKind::Top | FormKind::Bot) => check_operands(left == 0 && right == 0, true, true),
        Some(FormKind::And | FormKind::Or | FormKind::Imp) => {
            check_operands(true, true, left < i && right < i)
        }
        Some(FormKind::Says) => check_operands(true, left < p, right < i),
        Some(FormKind::Sf) => check_operands(true, left < p && right < p, true),
        None => Err(Refusal::Range),
    }
}

// Whether a step of this kind carries a number; none where no kind has the number.
fn carries_number(kind: usize) -> Option<bool>
    ensures { result ≡ number_carried kind }
{
    let known = step_kinds().get(kind)?;
    Some(!known.operands.is_empty())
}

// The refusal of a step, which names no principal, no atom and no formula.
#[tactic(auto, using(crate::proofs::Known::step_known), unfolding(scope::specs::Logic::Form::both, common::specs::Refused::refusal_in, common::specs::Refused::number_of))]
pub fn check_step(kind: usize, left: u32, right: u32) -> Result<(), Refusal>
    ensures { refusal_in result ≡ step_refusal (row kind left right) }
{
    match carries_number(kind) {
        Some(true) => check_operands(right == 0, left <= MOST_STEP_NUMBER, true),
        Some(false) => check_operands(left == 0 && right == 0, true, true),
        None => Err(Refusal::Range),
    }
}
