// What is asked of a count, of a logic with its version and of a formula that a line names.
ghost use Rattle.std.specs.Prelude.{◌≡◌, ltb};
ghost use Rattle.scope.specs.File.Refusals.{demand, first_of, count_refusal, unit_refusal};
ghost use Rattle.scope.specs.File.Kinds.{logic_of};
ghost use Rattle.common.specs.Refused.{number_of, refusal_in};
ghost use Rattle.numbering.specs.Refused.{repeat_refusal};

use common::Refusal;

// The version whose text tells no logic.
const PLAIN_ONLY: u16 = 1;

// Crate `moves` asks so too, and promises it by cases, as its goals want it: here it is the definition's `demand`.
#[tactic(auto, unfolding(scope::specs::File::Refusals::demand, common::specs::Refused::refusal_in))]
pub(crate) fn demand(holds: bool, refusal: Refusal) -> Result<(), Refusal>
    ensures { refusal_in result ≡ demand holds (number_of refusal) 0 }
{
    if holds { Ok(()) } else { Err(refusal) }
}

pub(crate) fn check_count(least: u16, most: u16, n: u16) -> Result<(), Refusal>
    ensures { refusal_in result ≡ count_refusal least most n }
{
    demand((least..=most).contains(&n), Refusal::Range)
}

// A call tells the logic by a number, as other languages do.
pub(crate) fn check_unit(version: u16, logic: u16) -> Result<(), Refusal>
    ensures { refusal_in result ≡ unit_refusal version (logic_of logic) }
{
    demand(version != PLAIN_ONLY || logic == 0, Refusal::UnitInVersion1)
}

// A formula that a line names: one below the count, whose classes fit.
pub(crate) fn check_class(formulas: u16, f: u16, fits: bool) -> Result<(), Refusal>
    ensures { refusal_in result ≡ demand (ltb f formulas) 3 (demand fits 5 0) }
{
    demand(f < formulas, Refusal::Range)?;
    demand(fits, Refusal::WrongClass)
}

// The refusal of a row, and then that of its repeating an earlier one.
pub(crate) fn refusal_with(row: Result<(), Refusal>, earlier: Option<u16>) -> Result<(), Refusal>
    ensures { refusal_in result ≡ first_of (refusal_in row) (repeat_refusal earlier) }
{
    row?;
    match earlier {
        Some(_) => Err(Refusal::Repeated),
        None => Ok(()),
    }
}
