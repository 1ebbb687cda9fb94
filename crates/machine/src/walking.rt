// The walk: each step is judged on the current obligation and its move written in place; the first refusal is the answer.
ghost use Rattle.std.specs.Prelude.{◌≡◌, ◌≤◌};
ghost use Rattle.scope.specs.Limits.{most_open};
ghost use Rattle.scope.specs.Call.Answer.{answer};
ghost use Rattle.common.specs.Refused.{number_of};
ghost use Rattle.common.specs.Answers.{answer_of};
ghost use Rattle.machine.specs.Change.{chunk_count};
ghost use Rattle.machine.specs.Room.{Room};
ghost use Rattle.machine.specs.Machine.{step_in, current, judged_now, moved, refusal_at, ran_from, ran};
ghost use Rattle.machine.specs.Machine.{obligation_at as obligation_at'};
ghost use Rattle.machine.specs.Turn.{seen};

use crate::{HELD, OPENED, Obligation, SAVED, StepRefusal, Walk, begin, blocks, changes};
use common::{Answer, Refusal, put_at};
use facts::{Facts, ROWS};
use moves::judging::Sequent;
use moves::{Lab, Move};
use steps::Step;

// The place of the answer is the step's number.
impl From<StepRefusal> for Answer {
    ghost from_gives = { λ r a. a ≡ answer_of (answer (number_of r.refusal) r.step) };

    fn from(r: StepRefusal) -> Answer {
        Answer::at(r.refusal, r.step)
    }
}

impl StepRefusal {
    // Steps are numbered from 0 in the table, and from 1 in the answer. No turn goes on from here, so none is to carry the answer along.
    #[cold]
    #[inline(never)]
    fn at(refusal: Refusal, i: u16) -> Self
        ensures { result ≡ refusal_at refusal i }
    {
        StepRefusal {
            refusal,
            step: u32::from(i) + 1,
        }
    }
}

#[tactic(auto, unfolding(crate::specs::Machine::step_in))]
fn step_at(steps: &[u16], i: u16) -> Step
    ensures { result ≡ step_in steps.now i }
{
    Step::from(steps::pair_at(steps, i))
}

impl Walk {
    #[tactic(auto, unfolding(crate::specs::Machine::obligation_at))]
    fn obligation_at(&self, place: u16) -> Obligation
        requires { place ≤ most_open }
        ensures { result ≡ obligation_at' (seen self.now) place }
    {
        self.obligations[usize::from(place)]
    }

    // A step judged on the current obligation.
    #[tactic(auto, unfolding(crate::specs::Machine::judged_now))]
    fn judged(&self, forms: &[u16], x: Step) -> Result<Move, Refusal>
        requires { self.now.opened ≤ most_open }
        ensures { result ≡ judged_now forms.now (seen self.now) x }
    {
        let place = self.opened.saturating_sub(1);
        let o = self.obligation_at(place);
        let top = blocks::top_chunk(&self.chunks, place, o);
        let sequent = Sequent {
            forms,
            facts: &self.facts,
            clauses: &self.clauses,
            worlds: o.worlds,
            count: o.clauses,
            opened: self.opened,
        };
        sequent.judge_step(o.phase, top, x)
    }

    // A move of the current obligation. The topmost chunk, and its world, go to the next clause's number, which no sequent has yet.
    fn make(&mut self, unit: bool, m: Move)
        requires few { self.old.opened ≤ most_open }
        requires room { let o = current (seen self.old) in Room m o.worlds o.clauses (chunk_count o.phase) self.old.opened }
        ensures { seen self.new ≡ moved unit (seen self.old) m }
    {
        let opened = self.opened;
        let place = opened.saturating_sub(1);
        let below = opened.saturating_sub(2);
        let o = self.obligation_at(place);
        let next = self.obligation_at(below);
        let made = changes::change_of(m, o, opened);
        let top = Lab {
            form: blocks::top_chunk(&self.chunks, place, o),
            at: o.goal().at,
        };
        blocks::save_rows(&mut self.saved, &self.facts, o, opened, made.opened);
        blocks::move_rows(&mut self.facts, &self.saved, unit, m, o, next, below);
        blocks::move_chunks(&mut self.chunks, m, o, place);
        put_at(&mut self.clauses, usize::from(o.clauses), top);
        self.obligations[usize::from(opened)] = made.upper;
        self.obligations[usize::from(place)] = made.lower;
        self.opened = made.opened;
    }

    // All steps, in the logic unit or plain: as many as are counted, also where the table is shorter.
    fn run(
        &mut self,
        forms: &[u16],
        steps: &[u16],
        unit: bool,
        total: u16,
    ) -> Result<(), StepRefusal>
        requires { self.old.opened ≤ most_open }
        ensures { result ≡ ran_from unit forms.now steps.now total 0 (seen self.old) }
    {
        for i in 0..total {
            if self.opened == 0 {
                return Err(StepRefusal::at(Refusal::AllClosed, i));
            }
            let x = step_at(steps, i);
            match self.judged(forms, x) {
                Ok(m) => self.make(unit, m),
                Err(refusal) => return Err(StepRefusal::at(refusal, i)),
            }
        }
        if 0 < self.opened {
            return Err(StepRefusal::at(Refusal::LeftOpen, total));
        }
        Ok(())
    }
}

// The answer about the steps, in the logic unit or plain, for any tables and counts: count policy lines, total steps. The counts come beside
// the tables, since a lent table may be longer or shorter than its count: `ran` says what is read then.
pub fn walk_steps(
    forms: &[u16],
    lines: &[u16],
    steps: &[u16],
    unit: bool,
    count: u16,
    goal: u16,
    total: u16,
) -> Result<(), StepRefusal>
    ensures { result ≡ ran unit forms.now lines.now steps.now count goal total }
{
    let mut walk = Walk {
        facts: Facts { rows: [0; ROWS] },
        clauses: begin::first_clauses(lines, count),
        obligations: [begin::first_one(goal, count); OPENED],
        chunks: [0; HELD],
        saved: [0; SAVED],
        opened: 1,
    };
    begin::note_lines(&mut walk.facts, forms, lines, count);
    walk.run(forms, steps, unit, total)
}
