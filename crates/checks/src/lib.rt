// The checks over counts and lent tables that writer and judge both make: 13; 16; then 3, 4, 15 or 5 at the line where the text has it;
// then 3 at place 0 for a nonzero entry past the counts. The first met is the answer.
#![tactic(auto)]

ghost use Rattle.std.specs.Prelude.{◌≡◌, [], drop, eqb, ◌≤◌};
ghost use Rattle.std.specs.List.{list_all};
ghost use Rattle.scope.specs.Call.Answer.{answer};
ghost use Rattle.scope.specs.File.Refusals.{demand, row_refusal, first_of};
ghost use Rattle.scope.specs.Call.Checked.{body_answers, past_zero, checked, line_answer};
ghost use Rattle.scope.specs.Call.Tables.{has_room, unpack, form_entry, policy_entry, step_entry, request_of};
ghost use Rattle.scope.specs.Limits.{most_formulas, form_at};
ghost use Rattle.scope.specs.File.Kinds.{form_kinds, logic_of};
ghost use Rattle.common.specs.Refused.{refusal_in};
ghost use Rattle.common.specs.Rows.{as_row};
ghost use Rattle.numbering.specs.Refused.{repeat_refusal};
ghost use Rattle.checks.specs.Met.{checked_of, met_in, down_of, place_of, lent_with};
ghost use Rattle.checks.specs.Answers.{head_answers, count_answers, form_answers, policy_answers, step_answers};
ghost use Rattle.checks.specs.Whole.{form_part, line_part, step_part};

use classes::Class;
use common::{Answer, Counts, Refusal, Row, value_at};
use numbering::SLOTS;
use steps::{Pair, Step, pair_at};

mod rows;

// A refusal at the place where it is met.
#[tactic(auto, using(crate::specs::MetLaws::refused_line), unfolding(crate::specs::Met::checked_of, common::specs::Refused::refusal_in))]
fn at_line(refused: Result<(), Refusal>, place: u32) -> Result<(), Answer>
    ensures { result ≡ checked_of (answer (refusal_in refused) place) }
{
    refused.map_err(|refusal| Answer::at(refusal, place))
}

fn check_counts(counts: Counts) -> Result<(), Answer>
    ensures { result ≡ met_in (count_answers counts.principals counts.atoms counts.formulas) }
{
    let first = rows::check_count(1, common::MOST_PRINCIPALS, counts.principals);
    at_line(first, common::principals_at())?;
    let second = rows::check_count(1, common::MOST_ATOMS, counts.atoms);
    at_line(second, common::atoms_at())?;
    let third = rows::check_count(1, common::MOST_FORMULAS, counts.formulas);
    at_line(third, common::formulas_at())
}

// Formula number i, and the earlier one that it repeats.
fn check_form(counts: Counts, i: u16, row: Row, earlier: Option<u16>) -> Result<(), Answer>
    ensures { result ≡ checked_of (answer (first_of (row_refusal form_kinds counts.principals counts.atoms i (as_row row)) (repeat_refusal earlier)) (form_at i)) }
{
    let own = refusals::check_form(
        usize::from(row.kind),
        u32::from(row.left),
        u32::from(row.right),
        counts.principals,
        counts.atoms,
        i,
    );
    at_line(rows::refusal_with(own, earlier), common::form_at(i))
}

fn check_forms(counts: Counts, forms: &[u16]) -> Result<(), Answer>
    requires { counts.formulas ≤ most_formulas }
    ensures { result ≡ met_in (form_answers counts.principals counts.atoms (unpack form_entry counts.formulas forms.now)) }
{
    let mut slots = [0u16; SLOTS];
    for i in 0..counts.formulas {
        let row = common::row_at(forms, i);
        let earlier = numbering::enter_row(forms, &mut slots, i, row);
        check_form(counts, i, row, earlier)?;
    }
    Ok(())
}

fn check_clauses(counts: Counts, classes: &[Class], policy: &[u16]) -> Result<(), Answer>
    ensures { result ≡ met_in (policy_answers classes.now counts.formulas (unpack policy_entry counts.policy policy.now)) }
{
    for i in 0..counts.policy {
        let f = value_at(policy, usize::from(i), 0);
        let class = value_at(classes, usize::from(f), Class::NONE);
        let line = rows::check_class(counts.formulas, f, class.policy);
        at_line(line, common::clause_at(counts.formulas, i))?;
    }
    Ok(())
}

fn check_steps(counts: Counts, steps: &[u16]) -> Result<(), Answer>
    ensures { result ≡ met_in (step_answers counts.formulas counts.policy (unpack step_entry counts.steps steps.now)) }
{
    for i in 0..counts.steps {
        let pair = pair_at(steps, i);
        let kind = usize::from(pair.kind);
        let carried = u32::from(pair.number);
        let step = refusals::check_step(kind, carried, 0);
        at_line(step, common::step_at(counts.formulas, counts.policy, i))?;
    }
    Ok(())
}

fn zero_from(table: &[u16], from: usize) -> bool
    ensures { result ≡ list_all (λ n. eqb n 0) (drop from table.now) }
{
    let Some(rest) = table.get(from..) else {
        return true;
    };
    rest.iter().all(|entry| *entry == 0)
}

fn check_past(counts: Counts, forms: &[u16], policy: &[u16], steps: &[u16]) -> Result<(), Refusal>
    ensures { refusal_in result ≡ demand (past_zero (lent_with counts forms.now policy.now steps.now)) 3 0 }
{
    let forms_rest = zero_from(forms, 3 * usize::from(counts.formulas));
    rows::demand(forms_rest, Refusal::Range)?;
    let policy_rest = zero_from(policy, usize::from(counts.policy));
    rows::demand(policy_rest, Refusal::Range)?;
    let steps_rest = zero_from(steps, 2 * usize::from(counts.steps));
    rows::demand(steps_rest, Refusal::Range)
}

// Of the lent tables each part takes those that it reads, and no others.
// The counts of principals, atoms and formulas, then the formulas.
fn check_formulas(counts: Counts, forms: &[u16]) -> Result<(), Answer>
    ensures { result ≡ met_in (form_part (lent_with counts forms.now [] [])) }
{
    check_counts(counts)?;
    check_forms(counts, forms)
}

// The count of policy lines, then those lines.
fn check_policy(counts: Counts, classes: &[Class], policy: &[u16]) -> Result<(), Answer>
    ensures { result ≡ met_in (line_part (lent_with counts [] policy.now []) classes.now) }
{
    let count = rows::check_count(0, common::MOST_POLICY_LINES, counts.policy);
    at_line(count, common::clauses_at(counts.formulas))?;
    check_clauses(counts, classes, policy)
}

// The goal and the count of steps, then the steps.
fn check_proof(counts: Counts, classes: &[Class], steps: &[u16]) -> Result<(), Answer>
    ensures { result ≡ met_in (step_part (lent_with counts [] [] steps.now) classes.now) }
{
    let class = value_at(classes, usize::from(counts.goal), Class::NONE);
    let goal = rows::check_class(counts.formulas, counts.goal, class.goal);
    at_line(goal, common::goal_at(counts.formulas, counts.policy))?;
    let count = rows::check_count(1, common::MOST_STEPS, counts.steps);
    at_line(count, common::steps_at(counts.formulas, counts.policy))?;
    check_steps(counts, steps)
}

// The room, unit with version 1, and the version.
fn check_head(counts: Counts, forms: usize, policy: usize, steps: usize) -> Result<(), Answer>
    ensures { result ≡ met_in (head_answers forms policy steps counts.version (logic_of counts.logic)) }
{
    let room = rows::demand(
        common::has_room(forms, policy, steps),
        Refusal::TableTooShort,
    );
    at_line(room, 0)?;
    let unit = rows::check_unit(counts.version, counts.logic);
    at_line(unit, 0)?;
    let version = rows::check_count(1, common::MOST_VERSION, counts.version);
    at_line(version, common::version_at())
}

// The lines from `principals=` on, as version 1 counts them.
fn check_body(counts: Counts, forms: &[u16], policy: &[u16], steps: &[u16]) -> Result<(), Answer>
    ensures { result ≡ met_in (body_answers (request_of (lent_with counts forms.now policy.now steps.now))) }
{
    check_formulas(counts, forms)?;
    let mut classes = [Class::NONE; classes::FORMULAS];
    classes::classes_of(forms, counts.formulas, &mut classes);
    check_policy(counts, &classes, policy)?;
    check_proof(counts, &classes, steps)
}

#[tactic(auto, unfolding(crate::specs::Met::down_of))]
fn further_down(checked: Result<(), Answer>, extra: u32) -> Result<(), Answer>
    requires { (place_of checked ≤ 10000) × (extra ≤ 1) }
    ensures { result ≡ down_of extra checked }
{
    checked.map_err(|answer| Answer {
        place: answer.place + extra,
        ..answer
    })
}

pub fn check_tables(
    counts: Counts,
    forms: &[u16],
    policy: &[u16],
    steps: &[u16],
) -> Result<(), Answer>
    ensures { result ≡ checked_of (checked (lent_with counts forms.now policy.now steps.now)) }
{
    check_head(counts, forms.len(), policy.len(), steps.len())?;
    let body = check_body(counts, forms, policy, steps);
    further_down(body, common::extra_lines(counts.version))?;
    at_line(check_past(counts, forms, policy, steps), 0)
}

// What is asked of lent tables where no steps are lent: that of a request whose one step is `top`.
pub fn check_lines(counts: Counts, forms: &[u16], policy: &[u16]) -> Result<(), Answer>
    ensures { result ≡ checked_of (line_answer (lent_with counts forms.now policy.now [])) }
{
    let mut steps = [0u16; common::STEP_ROOM];
    let top = Pair::from(Step::Top);
    steps[0] = top.kind;
    check_tables(Counts { steps: 1, ..counts }, forms, policy, &steps)
}
