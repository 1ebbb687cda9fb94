// A step on the current obligation, by its phase.
#![tactic(auto, using(crate::specs::Tests::tests), unfolding(common::specs::Rows::kind_number, common::specs::Rows::row_at, crate::specs::Judge::find_clause, crate::specs::Judge::use_clause, crate::specs::Judge::on_goal, crate::specs::Judge::goal_step, crate::specs::Judge::on_focus, crate::specs::Judge::focus_step, crate::specs::Judge::on_chunk, crate::specs::Judge::chunk_step, crate::specs::Judge::judge_step, crate::specs::Steps::and_step, crate::specs::Steps::or1_step, crate::specs::Steps::or2_step, crate::specs::Steps::imp_step, crate::specs::Steps::says_step, crate::specs::Steps::top_step, crate::specs::Steps::left_step, crate::specs::Steps::right_step, crate::specs::Steps::split_step, crate::specs::Steps::case_step, crate::specs::Steps::absurd_step, crate::specs::Steps::drop_step, crate::specs::Steps::note_step))]

ghost use Rattle.std.specs.Prelude.{◌≡◌};
ghost use Rattle.common.specs.Refused.{refusal_in};
ghost use Rattle.moves.specs.Steps.{number_in};
ghost use Rattle.moves.specs.Judge.{forms_of, ats_of, find_clause, goal_step, focus_step, chunk_step, judge_step};

use crate::{Lab, Move, Phase, chunk, focus, goal, on_kind, with_room};
use common::{
    FormKind, MOST_CHUNKS, MOST_CLAUSES, MOST_OPEN, MOST_WORLDS, Refusal, row_at, value_at,
};
use facts::Facts;
use steps::{Clause, Principal, Step, World};

// The clauses of a sequent by their numbers, policy lines first; one place more, which is never read.
pub const CLAUSES: usize = MOST_CLAUSES as usize + 1;

// What a step is judged on besides the phase: the formulas, the facts, the clauses with their worlds, and how many worlds, clauses and open
// obligations there are.
#[derive(Clone, Copy)]
pub struct Sequent<'a> {
    pub forms: &'a [u16],
    pub facts: &'a Facts,
    pub clauses: &'a [Lab; CLAUSES],
    pub worlds: u16,
    pub count: u16,
    pub opened: u16,
}

impl Sequent<'_> {
    // An `sf` line is no clause to use.
    fn find_clause(&self, n: Clause) -> Option<Lab>
        ensures { result ≡ find_clause self.now.forms.now (forms_of self.now.clauses.now) (ats_of self.now.clauses.now) self.now.count n }
    {
        if self.count <= n.0 {
            return None;
        }
        let none = Lab {
            form: 0,
            at: World(0),
        };
        let clauses = self.clauses;
        let clause = value_at(clauses, usize::from(n.0), none);
        if row_at(self.forms, clause.form).is(FormKind::Sf) {
            return None;
        }
        Some(clause)
    }

    fn goal_step(&self, g: Lab, x: Step) -> Result<Move, Refusal>
        ensures { result ≡ goal_step self.now.forms.now self.now.facts.now.rows (forms_of self.now.clauses.now) (ats_of self.now.clauses.now)
            g x self.now.worlds self.now.count self.now.opened }
    {
        let r = row_at(self.forms, g.form);
        match x {
            Step::And => {
                let m = Move::Both(r.left, r.right);
                with_room(r, FormKind::And, self.opened, MOST_OPEN, m)
            }
            Step::Or1 => on_kind(r, FormKind::Or, Move::Go(r.left)),
            Step::Or2 => on_kind(r, FormKind::Or, Move::Go(r.right)),
            Step::Imp => {
                let m = Move::Less(r.left, r.right);
                with_room(r, FormKind::Imp, self.worlds, MOST_WORLDS, m)
            }
            Step::Says => {
                let m = Move::Speak(Principal(r.left), r.right);
                with_room(r, FormKind::Says, self.worlds, MOST_WORLDS, m)
            }
            Step::Top => on_kind(r, FormKind::Top, Move::Close),
            Step::Sf => goal::sf_step(self.facts, r, g.at),
            Step::Use(n) => goal::use_step(r, self.find_clause(n)),
            _ => Err(Refusal::StepMisfit),
        }
    }

    fn focus_step(&self, part: Lab, target: Lab, x: Step) -> Result<Move, Refusal>
        ensures { result ≡ focus_step self.now.forms.now self.now.facts.now.rows part target x self.now.worlds self.now.opened }
    {
        let r = row_at(self.forms, part.form);
        let aim = row_at(self.forms, target.form);
        match x {
            Step::Left => on_kind(r, FormKind::And, Move::Aim(r.left, part.at)),
            Step::Right => on_kind(r, FormKind::And, Move::Aim(r.right, part.at)),
            Step::To(n) => focus::to_step(self, r, part.at, n),
            Step::Hit => focus::hit_step(self.facts, r, part.at, aim.left, target.at),
            _ => Err(Refusal::StepMisfit),
        }
    }

    // top is the topmost of n chunks.
    fn chunk_step(&self, top: u16, n: u16, x: Step) -> Result<Move, Refusal>
        ensures { result ≡ chunk_step self.now.forms.now top n x self.now.count self.now.opened }
    {
        let r = row_at(self.forms, top);
        match x {
            Step::Push => chunk::push_step(r, self.count),
            Step::Split => {
                let m = Move::Split(r.left, r.right);
                with_room(r, FormKind::And, n, MOST_CHUNKS, m)
            }
            Step::Case => {
                let m = Move::Case(r.left, r.right);
                with_room(r, FormKind::Or, self.opened, MOST_OPEN, m)
            }
            Step::Absurd => on_kind(r, FormKind::Bot, Move::Close),
            Step::Drop => on_kind(r, FormKind::Top, Move::Drop),
            Step::Note => {
                let m = Move::Note(Principal(r.left), Principal(r.right));
                on_kind(r, FormKind::Sf, m)
            }
            _ => Err(Refusal::StepMisfit),
        }
    }

    // The current obligation by its phase and its topmost chunk.
    #[tactic(auto, using(crate::specs::Steps::number_said), unfolding(crate::specs::Judge::judge_step))]
    pub fn judge_step(&self, phase: Phase, top: u16, x: Step) -> Result<Move, Refusal>
        ensures value { result ≡ judge_step self.now.forms.now self.now.facts.now.rows (forms_of self.now.clauses.now) (ats_of self.now.clauses.now)
            phase top x self.now.worlds self.now.count self.now.opened }
        ensures number { refusal_in result ≡ number_in (judge_step self.now.forms.now self.now.facts.now.rows (forms_of self.now.clauses.now) (ats_of self.now.clauses.now)
            phase top x self.now.worlds self.now.count self.now.opened) }
    {
        match phase {
            Phase::Goal(g) => self.goal_step(g, x),
            Phase::Chunks(_, n) => self.chunk_step(top, n, x),
            Phase::Focus(part, target) => self.focus_step(part, target, x),
        }
    }
}
