// The judge: the checks over tables and counts, and then the answers about steps. It writes nowhere.
#![tactic(auto)]

ghost use Rattle.std.specs.Prelude.{◌≡◌};
ghost use Rattle.scope.specs.Call.Judge.{judge as judge'};
ghost use Rattle.checks.specs.Met.{lent_with};
ghost use Rattle.common.specs.Answers.{answer_of};
ghost use Rattle.judge.specs.Answers.{refusal_answer};

use common::{Answer, Counts};
use machine::walking;

// The answer where nothing is refused, as other languages see it.
const GRANTED: Answer = Answer {
    refusal: 0,
    place: 0,
    column: 0,
};

// The first refusal, of the checks or else of the walk; counts and tables as other languages lend them.
fn judged(counts: Counts, forms: &[u16], policy: &[u16], steps: &[u16]) -> Result<(), Answer>
    ensures { refusal_answer result ≡ answer_of (judge' (lent_with counts forms.now policy.now steps.now)) }
{
    checks::check_tables(counts, forms, policy, steps)?;
    // A call tells the logic by a number, as other languages do: any but 0 is unit.
    let unit = counts.logic != 0;
    let walked = walking::walk_steps(
        forms,
        policy,
        steps,
        unit,
        counts.policy,
        counts.goal,
        counts.steps,
    );
    walked.map_err(Answer::from)
}

#[tactic(auto, unfolding(crate::specs::Answers::refusal_answer))]
pub fn judge(counts: Counts, forms: &[u16], policy: &[u16], steps: &[u16]) -> Answer
    ensures { result ≡ answer_of (judge' (lent_with counts forms.now policy.now steps.now)) }
{
    match judged(counts, forms, policy, steps) {
        Ok(()) => GRANTED,
        Err(refused) => refused,
    }
}
