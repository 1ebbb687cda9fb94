// The `form=` lines.
ghost use Rattle.std.specs.Prelude.{◌≡◌, ◌*◌, ◌≤◌, [], length, Result, MatchResult, IfOk};
ghost use Rattle.scope.specs.Limits.{most_formulas, form_at};
ghost use Rattle.scope.specs.File.Line.{shaped_as, line, many};
ghost use Rattle.scope.specs.File.Kinds.{form_kinds, row_in};
ghost use Rattle.scope.specs.File.Refusals.{row_refusal};
ghost use Rattle.scope.specs.File.Text.{form_line};
ghost use Rattle.scope.specs.File.Reader.{form_item};
ghost use Rattle.scope.specs.Call.Tables.{form_entry};
ghost use Rattle.common.specs.Rows.{as_row};
ghost use Rattle.reader.specs.Answers.{said, Reads, Zero, ReadsMany, ReadsPart, formulas_of, forms_of};
ghost use Rattle.reader.specs.NewRows.{asked_row, slots_with};
ghost use Rattle.reader.specs.Sections.{formulas_part};

use crate::parts::{Head, Parsed};
use common::{Answer, Refusal, Row};
use lines::Items;
use numbering::SLOTS;

// The row in the value of a `form=` line.
fn row_in(value: &[u8], principals: u16, atoms: u16, formula: u16) -> Result<Row, Refusal>
    ensures { said as_row result ≡ shaped_as (row_refusal form_kinds principals atoms formula) (row_in form_kinds value.now) }
{
    let Some(items) = lines::form_row(value) else {
        return Err(Refusal::Shape);
    };
    let Items { kind, left, right } = items;
    refusals::check_form(usize::from(kind), left, right, principals, atoms, formula)?;
    // What passes is below 65,536: `try_from` would have a refusal that never comes.
    Ok(Row {
        kind,
        left: left as u16,
        right: right as u16,
    })
}

// The row of a `form=` line behind those before it, whose rows stand in the table and are kept in the slots.
fn new_row(
    value: &[u8],
    head: Head,
    formula: u16,
    forms: &[u16],
    slots: &mut [u16; SLOTS],
) -> Result<Row, Refusal>
    ensures value { said as_row result ≡ shaped_as (asked_row head.principals head.atoms formula forms.now slots.old) (row_in form_kinds value.now) }
    ensures slots_after { IfOk result (λ r. slots.new ≡ slots_with forms.now formula slots.old r) }
{
    let row = row_in(value, head.principals, head.atoms, formula)?;
    match numbering::enter_row(forms, slots, formula, row) {
        Some(_) => Err(Refusal::Repeated),
        None => Ok(row),
    }
}

fn form_line<'a>(
    text: &'a [u8],
    head: Head,
    formula: u16,
    forms: &[u16],
    slots: &mut [u16; SLOTS],
) -> Parsed<'a, Row>
    ensures value { Reads as_row (line form_line (asked_row head.principals head.atoms formula forms.now slots.old) (form_at formula) text.now) result }
    ensures slots_after { IfOk result (λ p. slots.new ≡ slots_with forms.now formula slots.old p.0) }
{
    let value = lines::value_of(text, b"form=");
    // Behind the key, the value and its LF: the LF is not looked for again.
    match new_row(value, head, formula, forms, slots) {
        Ok(row) => Ok((row, &text[value.len() + 6..])),
        Err(refusal) => {
            let place = common::form_at(formula);
            Err(crate::refused(refusal, place, text, columns::form_line))
        }
    }
}

fn read_forms<'a>(text: &'a [u8], head: Head, forms: &mut [u16]) -> Result<&'a [u8], Answer>
    requires { Zero (3 * most_formulas) forms.old }
    ensures { ReadsMany form_entry head.formulas (many (form_item head.principals head.atoms) head.formulas [] text.now) result forms.new }
{
    let mut slots = [0u16; SLOTS];
    let mut rest = text;
    for i in 0..head.formulas {
        let (row, behind) = form_line(rest, head, i, forms, &mut slots)?;
        common::put_row(forms, i, row);
        rest = behind;
    }
    Ok(rest)
}

pub(crate) fn read_formulas<'a>(text: &'a [u8], forms: &mut [u16]) -> Parsed<'a, Head>
    requires { Zero (3 * most_formulas) forms.old }
    ensures { ReadsPart formulas_of forms_of (formulas_part text.now) result forms.new }
{
    let (head, rest) = crate::first_lines::read_head(text)?;
    let rest = read_forms(rest, head, forms)?;
    Ok((head, rest))
}
