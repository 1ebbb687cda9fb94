// The lines of the index: the name of a request file, and the answer, place, steps and column that
// judging it should give, parted by one space.
use crate::outcome::Outcome;

#[derive(Drop)]
pub(crate) struct Case<'a> {
    pub(crate) name: &'a [u8],
    pub(crate) wanted: Outcome,
}

// The case of a line, where it is well formed.
pub(crate) fn case_of(line: &[u8]) -> Option<Case<'_>> {
    let mut words = line.splitn(5, |byte| *byte == b' ');
    let name = words.next()?;
    let wanted = Outcome {
        answer: number_of(words.next()?)?,
        place: number_of(words.next()?)?,
        steps: number_of(words.next()?)?,
        column: number_of(words.next()?)?,
    };
    Some(Case { name, wanted })
}

// A number of at most five digits, which is more than any answer, place, count of steps or column has.
fn number_of(word: &[u8]) -> Option<u32> {
    // `parse` takes a `+` too.
    if !word.iter().all(|byte| byte.is_ascii_digit()) {
        return None;
    }
    let number = str::from_utf8(word).ok()?.parse().ok()?;
    Some(number).filter(|number| *number <= 99_999)
}
