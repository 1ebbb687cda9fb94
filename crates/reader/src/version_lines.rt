// The first line, and in version 2 the second: version and logic.
ghost use Rattle.std.specs.Prelude.{Result};
ghost use Rattle.scope.specs.File.Kinds.{logic_number};
ghost use Rattle.scope.specs.File.Line.{line};
ghost use Rattle.scope.specs.File.Text.{logic_line};
ghost use Rattle.scope.specs.Limits.{logic_at};
ghost use Rattle.reader.specs.Answers.{Gives, start_of};
ghost use Rattle.reader.specs.Sections.{start_part};

use crate::first_lines::count_line;
use crate::parts::{Parsed, Start};
use common::Refusal;

fn logic_line(text: &[u8]) -> Parsed<'_, u16>
    ensures { Gives logic_number (line logic_line (λ l. 0) logic_at text.now) result }
{
    let Some(number) = lines::logic_number(lines::value_of(text, b"logic=")) else {
        let place = common::logic_at();
        return Err(crate::refused(Refusal::Shape, place, text, columns::logic_line));
    };
    Ok((number, lines::rest_of(text)))
}

pub(crate) fn read_start(text: &[u8]) -> Parsed<'_, Start>
    ensures { Gives start_of (start_part text.now) result }
{
    let (version, rest) = count_line(
        text,
        b"version=",
        1,
        common::MOST_VERSION,
        common::version_at(),
    )?;
    if version != 2 {
        return Ok((Start { version, logic: 0 }, rest));
    }
    let (logic, rest) = logic_line(rest)?;
    Ok((Start { version, logic }, rest))
}
