// Reads a request file into lent tables of 16-bit numbers: 3 a formula, 1 a policy line, 2 a step.
#![tactic(auto)]

ghost use Rattle.std.specs.Prelude.{◌≡◌, ℕ, suc, ◌*◌, ◌≤◌, ◌<◌, length, replicate, Result};
ghost use Rattle.std.specs.Fn.{FnOnceReturnsAt};
ghost use Rattle.scope.specs.Limits.{most_bytes, most_formulas, most_policy_lines, most_steps};
ghost use Rattle.scope.specs.File.Reader.{read_request};
ghost use Rattle.scope.specs.Call.Answer.{told, column_for};
ghost use Rattle.scope.specs.Call.Calls.{reading, form_table_after, policy_table_after, step_table_after};
ghost use Rattle.common.specs.Answers.{answer_of};
ghost use Rattle.common.specs.Refused.{number_of};
ghost use Rattle.reader.specs.Answers.{reading_of, Zero, Answers};
ghost use Rattle.reader.specs.Whole.{body_request};

use common::{Answer, Counts, Refusal};
use parts::{Head, Policy, Start};

mod first_lines;
mod form_lines;
mod parts;
mod policy_lines;
mod step_lines;
mod version_lines;

// The answer about the line at the front of a text, which is refused (a stop is small, so its column is a u16): the column of one that is out of shape is the next after the bytes
// that can stand, of any other 0.
fn refused<F: FnOnce(&[u8]) -> usize>(refusal: Refusal, place: u32, text: &[u8], stop: F) -> Answer
    requires callable { F.IsAlwaysCallable stop }
    requires small { (n : ℕ) → FnOnceReturnsAt F.FnOnce stop text.now n → n < 65535 }
    ensures { (n : ℕ) → ((m : ℕ) → FnOnceReturnsAt F.FnOnce stop text.now m → m ≡ n) → result ≡ answer_of (told (number_of refusal) place (column_for (number_of refusal) (suc n))) }
{
    match refusal {
        Refusal::Shape => Answer {
            refusal: refusal.number(),
            place,
            column: stop(text) as u16 + 1,
        },
        _ => Answer::at(refusal, place),
    }
}

// The lines from `principals=` on, as version 1 counts them, then 6. The tables stay three, as C lends them: each part's reader takes one of
// them, and that of the policy reads another, so a struct of the three would only be taken apart.
fn read_body(
    text: &[u8],
    forms: &mut [u16],
    policy: &mut [u16],
    steps: &mut [u16],
) -> Result<Counts, Answer>
    requires forms_zero { Zero (3 * most_formulas) forms.old }
    requires policy_zero { Zero most_policy_lines policy.old }
    requires steps_zero { Zero (2 * most_steps) steps.old }
    ensures { Answers (body_request text.now) result forms.new policy.new steps.new }
{
    let (head, rest) = form_lines::read_formulas(text, forms)?;
    let (lines, rest) = policy_lines::read_policy(rest, head, forms, policy)?;
    let Head {
        principals,
        atoms,
        formulas,
        ..
    } = head;
    let Policy { clauses, goal } = lines;
    let (count, rest) = step_lines::read_proof(rest, formulas, clauses, steps)?;
    if !rest.is_empty() {
        let place = common::end_at(formulas, clauses, count);
        return Err(Answer::at(Refusal::BytesAfter, place));
    }
    Ok(Counts {
        principals,
        atoms,
        formulas,
        policy: clauses,
        goal,
        steps: count,
        ..Counts::default()
    })
}

// The lines in order, then 6. What is behind the first lines is told with version and logic, its refusals at the lines of the file.
fn read_lines(
    text: &[u8],
    forms: &mut [u16],
    policy: &mut [u16],
    steps: &mut [u16],
) -> Result<Counts, Answer>
    requires short { length text.now ≤ most_bytes }
    requires forms_zero { Zero (3 * most_formulas) forms.old }
    requires policy_zero { Zero most_policy_lines policy.old }
    requires steps_zero { Zero (2 * most_steps) steps.old }
    ensures { Answers (read_request text.now) result forms.new policy.new steps.new }
{
    let (Start { version, logic }, rest) = version_lines::read_start(text)?;
    match read_body(rest, forms, policy, steps) {
        Ok(counts) => Ok(Counts {
            version,
            logic,
            ..counts
        }),
        Err(answer) => Err(Answer {
            place: answer.place + common::extra_lines(version),
            ..answer
        }),
    }
}

fn clear(forms: &mut [u16], policy: &mut [u16], steps: &mut [u16])
    ensures forms_zero { forms.new ≡ replicate (length forms.old) 0 }
    ensures policy_zero { policy.new ≡ replicate (length policy.old) 0 }
    ensures steps_zero { steps.new ≡ replicate (length steps.old) 0 }
{
    forms.fill(0);
    policy.fill(0);
    steps.fill(0);
}

// The request in a file of at most 65,536 bytes. Every lent table is zero past what was read, and all zero after a refusal.
pub fn read_request(
    text: &[u8],
    forms: &mut [u16],
    policy: &mut [u16],
    steps: &mut [u16],
) -> Result<Counts, Answer>
    ensures value { result ≡ reading_of (reading (length forms.old) (length policy.old) (length steps.old) text.now) }
    ensures forms_after { forms.new ≡ form_table_after (length forms.old) (reading (length forms.old) (length policy.old) (length steps.old) text.now) }
    ensures policy_after { policy.new ≡ policy_table_after (length policy.old) (reading (length forms.old) (length policy.old) (length steps.old) text.now) }
    ensures steps_after { steps.new ≡ step_table_after (length steps.old) (reading (length forms.old) (length policy.old) (length steps.old) text.now) }
{
    let room = common::has_room(forms.len(), policy.len(), steps.len());
    clear(forms, policy, steps);
    if !room {
        return Err(Answer::at(Refusal::TableTooShort, 0));
    }
    if common::MOST_BYTES < text.len() {
        return Err(Answer::at(Refusal::TooLong, 0));
    }
    match read_lines(text, forms, policy, steps) {
        Ok(counts) => Ok(counts),
        Err(answer) => {
            clear(forms, policy, steps);
            Err(answer)
        }
    }
}
