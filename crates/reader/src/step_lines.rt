// The `step=` lines.
ghost use Rattle.std.specs.Prelude.{◌≡◌, suc, ◌*◌, ◌≤◌, [], length, Result};
ghost use Rattle.scope.specs.Limits.{most_steps, step_at};
ghost use Rattle.scope.specs.File.Line.{shaped_as, line, many};
ghost use Rattle.scope.specs.File.Kinds.{step_kinds, row_in};
ghost use Rattle.scope.specs.File.Refusals.{step_refusal};
ghost use Rattle.scope.specs.File.Text.{step_line};
ghost use Rattle.scope.specs.File.Reader.{step_item};
ghost use Rattle.scope.specs.Call.Tables.{step_entry};
ghost use Rattle.reader.specs.Answers.{said, step_row, Reads, Zero, ReadsMany, ReadsPart, count_of, rows_of};
ghost use Rattle.reader.specs.Sections.{steps_part};

use crate::parts::Parsed;
use common::{Answer, Refusal};
use lines::Items;
use steps::{Pair, Step};

// The step in the value of a `step=` line.
fn step_in(value: &[u8]) -> Result<Step, Refusal>
    ensures { said step_row result ≡ shaped_as step_refusal (row_in step_kinds value.now) }
{
    let Some(items) = lines::step_row(value) else {
        return Err(Refusal::Shape);
    };
    let Items { kind, left, right } = items;
    refusals::check_step(usize::from(kind), left, right)?;
    // It passed as a step's number, so nothing is lost.
    let number = left as u16;
    let step = Step::from(Pair { kind, number });
    Ok(step)
}

fn step_line(text: &[u8], place: u32) -> Parsed<'_, Step>
    ensures { Reads step_row (line step_line step_refusal place text.now) result }
{
    let value = lines::value_of(text, b"step=");
    // Behind the key, the value and its LF: the LF is not looked for again.
    match step_in(value) {
        Ok(step) => Ok((step, &text[value.len() + 6..])),
        Err(refusal) => Err(crate::refused(refusal, place, text, columns::step_line)),
    }
}

fn read_steps<'a>(
    text: &'a [u8],
    formulas: u16,
    clauses: u16,
    count: u16,
    steps: &mut [u16],
) -> Result<&'a [u8], Answer>
    requires few { count ≤ most_steps }
    requires zero { Zero (2 * most_steps) steps.old }
    ensures { ReadsMany step_entry count (many (step_item formulas clauses) count [] text.now) result steps.new }
{
    let mut rest = text;
    for i in 0..count {
        let (step, behind) = step_line(rest, common::step_at(formulas, clauses, i))?;
        let at = 2 * usize::from(i);
        let pair = Pair::from(step);
        steps[at] = pair.kind;
        steps[at + 1] = pair.number;
        rest = behind;
    }
    Ok(rest)
}

pub(crate) fn read_proof<'a>(
    text: &'a [u8],
    formulas: u16,
    clauses: u16,
    steps: &mut [u16],
) -> Parsed<'a, u16>
    requires { Zero (2 * most_steps) steps.old }
    ensures { ReadsPart count_of rows_of (steps_part formulas clauses text.now) result steps.new }
{
    let place = common::steps_at(formulas, clauses);
    let most = common::MOST_STEPS;
    let (count, rest) = crate::first_lines::count_line(text, b"steps=", 1, most, place)?;
    let rest = read_steps(rest, formulas, clauses, count, steps)?;
    Ok((count, rest))
}
