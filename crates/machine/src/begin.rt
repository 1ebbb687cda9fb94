// The beginning: world 0 with the policy lines as its clauses and facts, and the goal there.
ghost use Rattle.std.specs.Prelude.{◌≡◌, replicate};
ghost use Rattle.facts.specs.Rows.{root_rows};
ghost use Rattle.moves.specs.Judge.{forms_of, ats_of};
ghost use Rattle.machine.specs.Machine.{line_noted, lines_noted, lines_put, first};
ghost use Rattle.machine.specs.Tables.{clause_places};

use crate::Obligation;
use common::FormKind;
use facts::Facts;
use moves::judging::CLAUSES;
use moves::{Lab, Phase};
use steps::{Principal, World};

// An `sf` line is noted at world 0.
fn note_line(facts: &mut Facts, forms: &[u16], f: u16)
    ensures { facts.new.rows ≡ line_noted forms.now f facts.old.rows }
{
    let r = common::row_at(forms, f);
    if r.is(FormKind::Sf) {
        facts.add_note(World(0), Principal(r.left), Principal(r.right));
    }
}

// From the last line on, so that the facts stand in the lines' order. A table shorter than its count reads as 0 past its end.
pub(crate) fn note_lines(facts: &mut Facts, forms: &[u16], lines: &[u16], count: u16)
    ensures { facts.new.rows ≡ lines_noted forms.now lines.now count root_rows }
{
    facts.root_rows();
    for i in (0..count).rev() {
        note_line(facts, forms, common::value_at(lines, usize::from(i), 0));
    }
}

// Each line is a clause at world 0; the table may be shorter than its count here too.
pub(crate) fn first_clauses(lines: &[u16], count: u16) -> [Lab; CLAUSES]
    ensures forms { forms_of result ≡ lines_put lines.now count (replicate clause_places 0) }
    ensures ats { ats_of result ≡ replicate clause_places 0 }
{
    let root = World(0);
    let mut clauses = [Lab { form: 0, at: root }; CLAUSES];
    for i in (0..usize::from(count)).rev() {
        let form = common::value_at(lines, i, 0);
        common::put_at(&mut clauses, i, Lab { form, at: root });
    }
    clauses
}

#[tactic(auto, unfolding(crate::specs::Machine::first))]
pub(crate) fn first_one(goal: u16, count: u16) -> Obligation
    ensures { result ≡ first goal count }
{
    Obligation {
        phase: Phase::Goal(Lab {
            form: goal,
            at: World(0),
        }),
        worlds: 1,
        clauses: count,
    }
}
