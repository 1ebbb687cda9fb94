// The policy lines and the goal.
ghost use Rattle.std.specs.Prelude.{◌≡◌, ◌≤◌, Bool, [], length, Result};
ghost use Rattle.scope.specs.Limits.{most_policy_lines, clause_at, goal_at};
ghost use Rattle.scope.specs.File.Number.{number};
ghost use Rattle.scope.specs.File.Line.{shaped_as, line, many};
ghost use Rattle.scope.specs.File.Text.{clause_line, goal_line};
ghost use Rattle.scope.specs.Call.Tables.{unpack, form_entry, policy_entry};
ghost use Rattle.classes.specs.declared.Class.{Class};
ghost use Rattle.classes.specs.Class.{goal_in, policy_in, no_class};
ghost use Rattle.refusals.specs.Rows.{class_refusal};
ghost use Rattle.reader.specs.Answers.{said, same, Reads, Zero, ReadsMany, ReadsPart, policy_of, lines_of};
ghost use Rattle.reader.specs.Sections.{below_refusal, classed_item, policy_part};

use crate::first_lines::{count_line, number_line};
use crate::parts::{Head, Parsed, Policy};
use classes::Class;
use common::{Answer, Refusal};

// The formula that the value of a line names. No count, though asked alike: its bound is not one of the allowed numbers.
fn formula_in(value: &[u8], formulas: u16) -> Result<u16, Refusal>
    ensures { said same result ≡ shaped_as (below_refusal formulas) (number value.now) }
{
    let Ok(n) = lines::read_number(value) else {
        return Err(Refusal::Shape);
    };
    if u32::from(formulas) <= n {
        return Err(Refusal::Range);
    }
    // It is below a count, so nothing is lost.
    Ok(n as u16)
}

// The same, where its class may stand there. The count and the classes come beside one another, as the definition asks of both.
fn classed_in<F: FnOnce(Class) -> bool>(
    value: &[u8],
    formulas: u16,
    classes: &[Class],
    allows: F,
) -> Result<u16, Refusal>
    requires { F.IsAlwaysCallable allows }
    ensures { (test : Class → Bool) → ((c : Class) (b : Bool) → F.post allows c b → b ≡ test c) → said same result ≡ shaped_as (class_refusal test no_class classes.now formulas) (number value.now) }
{
    let f = formula_in(value, formulas)?;
    if allows(common::value_at(classes, usize::from(f), Class::NONE)) {
        Ok(f)
    } else {
        Err(Refusal::WrongClass)
    }
}

// This and `goal_line` say key, class and place, and share the rest: one function of both would take all six.
fn clause_line<'a>(text: &'a [u8], formulas: u16, classes: &[Class], clause: u16) -> Parsed<'a, u16>
    ensures { Reads same (line clause_line (class_refusal policy_in no_class classes.now formulas) (clause_at formulas clause) text.now) result }
{
    let value = lines::value_of(text, b"clause=");
    let got = classed_in(value, formulas, classes, |class| class.policy);
    number_line(got, text, b"clause=", common::clause_at(formulas, clause))
}

fn goal_line<'a>(text: &'a [u8], formulas: u16, classes: &[Class], clauses: u16) -> Parsed<'a, u16>
    ensures { Reads same (line goal_line (class_refusal goal_in no_class classes.now formulas) (goal_at formulas clauses) text.now) result }
{
    let value = lines::value_of(text, b"goal=");
    let got = classed_in(value, formulas, classes, |class| class.goal);
    number_line(got, text, b"goal=", common::goal_at(formulas, clauses))
}

fn read_clauses<'a>(
    text: &'a [u8],
    formulas: u16,
    classes: &[Class],
    clauses: u16,
    policy: &mut [u16],
) -> Result<&'a [u8], Answer>
    requires few { clauses ≤ most_policy_lines }
    requires zero { Zero most_policy_lines policy.old }
    ensures { ReadsMany policy_entry clauses (many (classed_item classes.now formulas) clauses [] text.now) result policy.new }
{
    let mut rest = text;
    for i in 0..clauses {
        let (formula, behind) = clause_line(rest, formulas, classes, i)?;
        policy[usize::from(i)] = formula;
        rest = behind;
    }
    Ok(rest)
}

pub(crate) fn read_policy<'a>(
    text: &'a [u8],
    head: Head,
    forms: &[u16],
    policy: &mut [u16],
) -> Parsed<'a, Policy>
    requires { Zero most_policy_lines policy.old }
    ensures { ReadsPart policy_of lines_of (policy_part (unpack form_entry head.formulas forms.now) text.now) result policy.new }
{
    let formulas = head.formulas;
    let most = common::MOST_POLICY_LINES;
    let (clauses, rest) = count_line(text, b"clauses=", 0, most, common::clauses_at(formulas))?;
    let mut classes = [Class::NONE; classes::FORMULAS];
    classes::classes_of(forms, formulas, &mut classes);
    let rest = read_clauses(rest, formulas, &classes, clauses, policy)?;
    let (goal, rest) = goal_line(rest, formulas, &classes, clauses)?;
    Ok((Policy { clauses, goal }, rest))
}
