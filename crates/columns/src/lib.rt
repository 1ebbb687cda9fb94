// How many bytes of a line can stand where it is refused 2: with one byte more, no line of the right shape begins so. The column that
// request d) asks for is one more. Nothing here is asked of a line in shape.
#![tactic(auto)]

ghost use Rattle.std.specs.Prelude.{◌≡◌};
ghost use Rattle.scope.specs.File.Kinds.{kind_stop, kinds_stop};
ghost use Rattle.scope.specs.File.Stops.{number_stop, word_stop, end_stop, items_stop};
ghost use Rattle.scope.specs.File.Line.{line_stop};
ghost use Rattle.scope.specs.File.Text.{logic_line, form_line, step_line};
ghost use Rattle.common.specs.Kinds.{kind_of, listed};
ghost use Rattle.columns.specs.Shapes.{number_with};
ghost use Rattle.columns.specs.Places.{stands};

use common::kinds::{Kind, form_kinds, logic_kinds, step_kinds};

// How many bytes of a key or a word stand at the front.
#[tactic(auto, unfolding(crate::specs::Places::stands))]
fn word_stop(text: &[u8], word: &[u8]) -> usize
    ensures { result ≡ stands word.now text.now }
{
    text.iter()
        .zip(word)
        .take_while(|pair| *pair.0 == *pair.1)
        .count()
}

// How many digits of a number stand at the front, as the number reader says.
#[tactic(auto, using(crate::specs::Places::stop_is))]
fn number_stop(text: &[u8]) -> usize
    ensures { result ≡ number_stop text.now }
{
    lines::read_number(text).err().unwrap_or(text.len())
}

#[tactic(auto, using(crate::specs::Places::ends))]
fn end_stop(text: &[u8]) -> usize
    ensures { result ≡ end_stop text.now }
{
    match text {
        [b'\n', ..] => 1,
        _ => 0,
    }
}

// Behind a kind's word: a space and a number for each operand, then the LF. The invariant reads how many are done.
#[tactic(auto, using(crate::specs::Places::operands))]
fn items_stop(text: &[u8], wanted: usize) -> usize
    ensures { result ≡ items_stop wanted text.now }
{
    let mut at = 0;
    for _done in 0..wanted {
        let Some(b' ') = text.get(at) else {
            return at;
        };
        let digits = number_stop(&text[at + 1..]);
        if digits == 0 {
            return at + 1;
        }
        at += 1 + digits;
    }
    at + end_stop(&text[at..])
}

// A kind's word and its items.
#[tactic(auto, using(crate::specs::Places::fronts, crate::specs::Places::kinds))]
fn kind_stop(text: &[u8], kind: &Kind) -> usize
    ensures { result ≡ kind_stop (kind_of kind.now) text.now }
{
    let letters = word_stop(text, kind.word);
    if letters < kind.word.len() {
        return letters;
    }
    letters + items_stop(&text[letters..], kind.operands.len())
}

// The kind that goes furthest.
#[tactic(auto, using(crate::specs::Places::furthest_is))]
fn kinds_stop(text: &[u8], kinds: &[Kind]) -> usize
    ensures { result ≡ kinds_stop (listed kinds.now) text.now }
{
    kinds
        .iter()
        .fold(0, |best, kind| kind_stop(text, kind).max(best))
}

// A line whose value is of one of these kinds.
#[tactic(auto, using(crate::specs::Places::fronts, crate::specs::RowPart::table_bounded))]
fn kind_line(text: &[u8], key: &[u8], kinds: &[Kind]) -> usize
    ensures { result ≡ word_stop key.now (kinds_stop (listed kinds.now)) text.now }
{
    let front = word_stop(text, key);
    if front < key.len() {
        return front;
    }
    front + kinds_stop(&text[front..], kinds)
}

// A line with a number.
#[tactic(auto, using(crate::specs::Places::fronts, crate::specs::Places::digits), unfolding(scope::specs::File::Line::line_stop))]
pub fn number_line(text: &[u8], key: &[u8]) -> usize
    ensures { result ≡ line_stop (number_with key.now) text.now }
{
    let front = word_stop(text, key);
    if front < key.len() {
        return front;
    }
    let digits = number_stop(&text[front..]);
    if digits == 0 {
        return front;
    }
    let end = front + digits;
    end + end_stop(&text[end..])
}

// A `form=` line.
#[tactic(auto, unfolding(scope::specs::File::Line::line_stop))]
pub fn form_line(text: &[u8]) -> usize
    ensures { result ≡ line_stop form_line text.now }
{
    kind_line(text, b"form=", form_kinds())
}

// A `logic=` line.
#[tactic(auto, unfolding(scope::specs::File::Line::line_stop))]
pub fn logic_line(text: &[u8]) -> usize
    ensures { result ≡ line_stop logic_line text.now }
{
    kind_line(text, b"logic=", logic_kinds())
}

// A `step=` line.
#[tactic(auto, unfolding(scope::specs::File::Line::line_stop))]
pub fn step_line(text: &[u8]) -> usize
    ensures { result ≡ line_stop step_line text.now }
{
    kind_line(text, b"step=", step_kinds())
}
