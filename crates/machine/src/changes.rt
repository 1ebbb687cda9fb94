// What a move makes of the current obligation.
ghost use Rattle.std.specs.Prelude.{◌≡◌, ◌+◌, ◌-◌, ◌<◌};
ghost use Rattle.scope.specs.Limits.{most_worlds, most_clauses, most_open};
ghost use Rattle.machine.specs.Change.{lab_at, chunk_count, goal_in, behind, aimed, with_phase, with_clauses, popped, new_world, alone, fork, change_of};
ghost use Rattle.machine.specs.Room.{Room};

use crate::{Change, Obligation};
use moves::{Lab, Move, Phase};
use steps::World;

impl Obligation {
    #[tactic(auto, unfolding(crate::specs::Change::chunk_count))]
    pub(crate) fn chunk_count(self) -> u16
        ensures { result ≡ chunk_count self.phase }
    {
        match self.phase {
            Phase::Chunks(_, n) => n,
            Phase::Goal(_) | Phase::Focus(_, _) => 0,
        }
    }

    #[tactic(auto, unfolding(crate::specs::Change::goal_in))]
    pub(crate) fn goal(self) -> Lab
        ensures { result ≡ goal_in self.phase }
    {
        match self.phase {
            Phase::Goal(g) | Phase::Chunks(g, _) | Phase::Focus(_, g) => g,
        }
    }

    // The number of the topmost chunk's place.
    pub(crate) fn top_place(self) -> u16
        ensures { result ≡ chunk_count self.phase - 1 }
    {
        self.chunk_count().saturating_sub(1)
    }

    // A formula as the goal at a world; and the focus on it, aiming at the goal.
    fn with_goal(self, form: u16, at: World) -> Obligation
        ensures { result ≡ with_phase self (Phase.Goal (lab_at form at)) }
    {
        Obligation {
            phase: Phase::Goal(Lab { form, at }),
            ..self
        }
    }

    #[tactic(auto, unfolding(crate::specs::Change::aimed))]
    fn in_focus(self, form: u16, at: World) -> Obligation
        ensures { result ≡ with_phase self (aimed self.phase form at) }
    {
        Obligation {
            phase: Phase::Focus(Lab { form, at }, self.goal()),
            ..self
        }
    }

    // The goal behind n chunks.
    #[tactic(auto, using(moves::specs::Tests::tests), unfolding(crate::specs::Change::behind))]
    fn with_chunks(self, n: u16) -> Obligation
        ensures { result ≡ with_phase self (behind (goal_in self.phase) n) }
    {
        let goal = self.goal();
        if n == 0 {
            return self.with_goal(goal.form, goal.at);
        }
        Obligation {
            phase: Phase::Chunks(goal, n),
            ..self
        }
    }

    // The topmost chunk is gone.
    #[tactic(auto, unfolding(crate::specs::Change::popped))]
    fn popped(self) -> Obligation
        ensures { result ≡ popped self }
    {
        self.with_chunks(self.top_place())
    }

    // The topmost chunk is a clause.
    fn pushed(self) -> Obligation
        requires { self.clauses < most_clauses }
        ensures { result ≡ with_clauses (popped self) (self.clauses + 1) }
    {
        Obligation {
            clauses: self.clauses + 1,
            ..self.popped()
        }
    }

    #[tactic(auto, unfolding(crate::specs::Change::new_world))]
    fn in_new_world(self, phase: Phase) -> Obligation
        requires { self.worlds < most_worlds }
        ensures { result ≡ new_world self phase }
    {
        Obligation {
            phase,
            worlds: self.worlds + 1,
            ..self
        }
    }
}

impl Change {
    fn alone(o: Obligation, opened: u16) -> Change
        ensures { result ≡ alone o opened }
    {
        Change {
            lower: o,
            upper: o,
            opened,
        }
    }

    // One more is open: the upper one is the current one now, and the lower one waits.
    fn fork(upper: Obligation, lower: Obligation, opened: u16) -> Change
        requires { opened < most_open }
        ensures { result ≡ fork upper lower opened }
    {
        Change {
            lower,
            upper,
            opened: opened + 1,
        }
    }
}

// Each move changes otherwise: two that change alike share an arm.
#[tactic(auto, unfolding(crate::specs::Change::change_of, crate::specs::Change::here, crate::specs::Change::one_more, crate::specs::Room::Room))]
pub(crate) fn change_of(m: Move, o: Obligation, opened: u16) -> Change
    requires { Room m o.worlds o.clauses (chunk_count o.phase) opened }
    ensures { result ≡ change_of m o opened }
{
    let goal = o.goal();
    let newest = World(o.worlds);
    match m {
        Move::Close => Change::alone(o, opened.saturating_sub(1)),
        Move::Go(f) => Change::alone(o.with_goal(f, goal.at), opened),
        Move::Aim(f, v) => Change::alone(o.in_focus(f, v), opened),
        // Two goals, the first one first.
        Move::Both(f, h) => Change::fork(o.with_goal(f, goal.at), o.with_goal(h, goal.at), opened),
        // A subgoal waits while the focus goes on.
        Move::Meet(f, h, v) => {
            let focus = o.in_focus(h, v);
            let subgoal = o.with_goal(f, v);
            Change::fork(focus, subgoal, opened)
        }
        Move::Less(_, form) => {
            let next = o.in_new_world(Phase::Chunks(Lab { form, at: newest }, 1));
            Change::alone(next, opened)
        }
        Move::Speak(_, form) => {
            let next = o.in_new_world(Phase::Goal(Lab { form, at: newest }));
            Change::alone(next, opened)
        }
        Move::Push => Change::alone(o.pushed(), opened),
        Move::Drop | Move::Note(_, _) => Change::alone(o.popped(), opened),
        // Two chunks in the topmost one's place.
        Move::Split(_, _) => {
            let phase = Phase::Chunks(goal, o.chunk_count() + 1);
            Change::alone(Obligation { phase, ..o }, opened)
        }
        // Two branches.
        Move::Case(_, _) => Change::fork(o, o, opened),
    }
}
