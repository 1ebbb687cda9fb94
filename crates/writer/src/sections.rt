// The sections of a request's text, each put behind the one before it.
ghost use Rattle.std.specs.Prelude.{◌<◌, ◌+◌, ◌*◌};
ghost use Rattle.scope.specs.File.Kinds.{logic_of};
ghost use Rattle.scope.specs.File.Text.{request_text};
ghost use Rattle.scope.specs.Call.Tables.{request_of};
ghost use Rattle.checks.specs.Met.{lent_with};
ghost use Rattle.writer.specs.Puts.{Puts};
ghost use Rattle.writer.specs.Wrote.{Wrote};
ghost use Rattle.writer.specs.Sections.{version_text, head_text, formulas_text, policy_text, proof_text};

use crate::output::Output;
use common::kinds::{form_kinds, step_kinds};
use common::{Counts, Row, row_at, value_at};
use steps::pair_at;

impl Output<'_> {
    // The first line, and the second in version 2.
    #[inline(always)]
    fn put_version(&mut self, counts: Counts)
        requires { self.old.at < 10 }
        ensures { Wrote self.old (version_text counts.version (logic_of counts.logic)) 38 self.new }
    {
        self.put_count(b"version=", counts.version);
        if counts.version == 2 {
            self.put_logic(counts.logic);
        }
    }

    #[inline(always)]
    fn put_head(&mut self, counts: Counts)
        requires { self.old.at < 10 }
        ensures { Wrote self.old (head_text counts.version (logic_of counts.logic) counts.principals counts.atoms) 82 self.new }
    {
        self.put_version(counts);
        self.put_count(b"principals=", counts.principals);
        self.put_count(b"atoms=", counts.atoms);
    }

    #[inline(always)]
    fn put_formulas(&mut self, count: u16, forms: &[u16])
        requires { self.old.at < 5000000 }
        ensures { Wrote self.old (formulas_text count forms.now) (22 + 45 * count) self.new }
    {
        self.put_count(b"formulas=", count);
        for i in 0..count {
            self.put_row(b"form=", form_kinds(), row_at(forms, i));
        }
    }

    #[inline(always)]
    fn put_policy(&mut self, count: u16, policy: &[u16])
        requires { self.old.at < 5000000 }
        ensures { Wrote self.old (policy_text count policy.now) (22 + 22 * count) self.new }
    {
        self.put_count(b"clauses=", count);
        for i in 0..count {
            self.put_count(b"clause=", value_at(policy, usize::from(i), 0));
        }
    }

    #[inline(always)]
    fn put_proof(&mut self, goal: u16, count: u16, steps: &[u16])
        requires { self.old.at < 5000000 }
        ensures { Wrote self.old (proof_text goal count steps.now) (44 + 45 * count) self.new }
    {
        self.put_count(b"goal=", goal);
        self.put_count(b"steps=", count);
        for i in 0..count {
            let step = pair_at(steps, i);
            let row = Row {
                kind: step.kind,
                left: step.number,
                right: 0,
            };
            self.put_row(b"step=", step_kinds(), row);
        }
    }
}

// The whole text of what counts and tables say, which come as other languages lend them.
pub(crate) fn put_request(
    counts: Counts,
    forms: &[u16],
    policy: &[u16],
    steps: &[u16],
    out: &mut [u8],
) -> usize
    ensures { Puts out.old 0 (request_text (request_of (lent_with counts forms.now policy.now steps.now))) (82 + (22 + 45 * counts.formulas) + (22 + 22 * counts.policy) + (44 + 45 * counts.steps)) out.new result }
{
    let mut text = Output { bytes: out, at: 0 };
    text.put_head(counts);
    text.put_formulas(counts.formulas, forms);
    text.put_policy(counts.policy, policy);
    text.put_proof(counts.goal, counts.steps, steps);
    text.at
}
