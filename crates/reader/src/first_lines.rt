// Lines with a number, and the three from `principals=` on: principals, atoms, formulas.
ghost use Rattle.std.specs.Prelude.{◌≡◌, suc, ◌≤◌, length, Result};
ghost use Rattle.scope.specs.Limits.{most_formulas};
ghost use Rattle.scope.specs.File.Number.{number};
ghost use Rattle.scope.specs.File.Line.{shaped_as, placed, line_stop, line};
ghost use Rattle.scope.specs.File.Refusals.{count_refusal};
ghost use Rattle.columns.specs.Shapes.{number_with};
ghost use Rattle.lines.specs.Parts.{rest_of};
ghost use Rattle.reader.specs.Answers.{said, same, Reads, head_of};
ghost use Rattle.reader.specs.Sections.{head_part};

use crate::parts::{Head, Parsed};
use common::Refusal;

// A count between `least` and `most` in the value of a line.
fn count_in(value: &[u8], least: u16, most: u16) -> Result<u16, Refusal>
    ensures { said same result ≡ shaped_as (count_refusal least most) (number value.now) }
{
    let Ok(n) = lines::read_number(value) else {
        return Err(Refusal::Shape);
    };
    if n < u32::from(least) || u32::from(most) < n {
        return Err(Refusal::Range);
    }
    // It is at most `most`, so nothing is lost.
    Ok(n as u16)
}

// A line with a number by what its value gave. No key is longer than `principals=`.
pub(crate) fn number_line<'a>(
    got: Result<u16, Refusal>,
    text: &'a [u8],
    key: &[u8],
    place: u32,
) -> Parsed<'a, u16>
    requires { length key.now ≤ 11 }
    ensures { Reads same (placed place (suc (line_stop (number_with key.now) text.now)) (said same got) (rest_of text.now)) result }
{
    match got {
        Ok(n) => Ok((n, lines::rest_of(text))),
        Err(refusal) => Err(crate::refused(refusal, place, text, |line| {
            columns::number_line(line, key)
        })),
    }
}

pub(crate) fn count_line<'a>(
    text: &'a [u8],
    key: &[u8],
    least: u16,
    most: u16,
    place: u32,
) -> Parsed<'a, u16>
    requires { length key.now ≤ 11 }
    ensures { Reads same (line (number_with key.now) (count_refusal least most) place text.now) result }
{
    let count = count_in(lines::value_of(text, key), least, most);
    number_line(count, text, key, place)
}

pub(crate) fn read_head(text: &[u8]) -> Parsed<'_, Head>
    ensures { Reads head_of (head_part text.now) result }
{
    let most = common::MOST_PRINCIPALS;
    let (principals, rest) = count_line(text, b"principals=", 1, most, common::principals_at())?;
    let (atoms, rest) = count_line(rest, b"atoms=", 1, common::MOST_ATOMS, common::atoms_at())?;
    let most = common::MOST_FORMULAS;
    let (formulas, rest) = count_line(rest, b"formulas=", 1, most, common::formulas_at())?;
    Ok((
        Head {
            principals,
            atoms,
            formulas,
        },
        rest,
    ))
}
