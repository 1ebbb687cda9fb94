// What stands in a line of the request file: its value and the rest of the text, as parts of the file's own bytes, and
// the numbers and kind words of a value.
#![tactic(auto)]

ghost use Rattle.std.specs.Prelude.{◌≡◌, ◌==◌, MatchOption, position, true};
ghost use Rattle.scope.specs.File.Number.{number};
ghost use Rattle.scope.specs.File.Line.{cut, uncut, parts};
ghost use Rattle.scope.specs.File.Kinds.{form_kinds, step_kinds, logic_kinds, kind_from, row_in};
ghost use Rattle.scope.specs.File.Stops.{most_digits, number_stop};
ghost use Rattle.common.specs.Kinds.{listed};
ghost use Rattle.lines.specs.Parts.{value_of, rest_of};
ghost use Rattle.lines.specs.Answers.{number_answer, row_answer, kind_answer};
ghost use Rattle.lines.specs.Codes.{code_of};
ghost use Rattle.lines.specs.Rows.{are_few, codes_of};
ghost use Rattle.lines.specs.Operands.{shown, operand_of};

use common::kinds::{Kind, form_kinds, logic_kinds, step_kinds};

// The kind and the operands of a `form=` or `step=` value, 0 where the kind lacks one.
#[derive(Clone, Copy, PartialEq, Eq, Debug)]
pub struct Items {
    pub kind: u16,
    pub left: u32,
    pub right: u32,
}

// The place of the first `byte`. Called and not inlined: within larger loops this one would take more moves a byte.
#[inline(never)]
fn find_byte(text: &[u8], byte: u8) -> Option<usize>
    ensures { result ≡ position (λ b. b == byte) text.now }
{
    text.iter().position(|b| *b == byte)
}

// What stands before the first `byte`, and what after it.
#[tactic(auto, using(crate::specs::Parts::cut_is, crate::specs::Parts::tail_part))]
fn cut(text: &[u8], byte: u8) -> Option<(&[u8], &[u8])>
    ensures { MatchOption result (cut byte text.now ≡ uncut) (λ p. cut byte text.now ≡ parts p.0.now p.1.now) }
{
    let at = find_byte(text, byte)?;
    Some((&text[..at], &text[at + 1..]))
}

// What stands after the key in the text's first line; the empty part where there is no such line.
#[tactic(auto, using(crate::specs::Values::value_is, crate::specs::Values::value_none))]
pub fn value_of<'a>(text: &'a [u8], key: &[u8]) -> &'a [u8]
    ensures { result.now ≡ value_of key.now text.now }
{
    match cut(text, b'\n') {
        Some((line, _)) => line.strip_prefix(key).unwrap_or(&[]),
        None => &[],
    }
}

// What stands after the text's first LF; the empty part where there is none.
#[tactic(auto, using(crate::specs::Values::rest_is, crate::specs::Values::rest_none))]
pub fn rest_of(text: &[u8]) -> &[u8]
    ensures { result.now ≡ rest_of text.now }
{
    match cut(text, b'\n') {
        Some((_, rest)) => rest,
        None => &[],
    }
}

// The most digits that a number with this first byte has.
#[tactic(auto, unfolding(scope::specs::File::Stops::most_digits))]
fn most_digits(text: &[u8]) -> usize
    ensures { result ≡ most_digits text.now }
{
    match text {
        [] => 0,
        [b'0', ..] => 1,
        _ => 5,
    }
}

// The number that the whole text writes, or where it stops being one: the place of a byte is an answer, so its turns are counted.
pub fn read_number(text: &[u8]) -> Result<u32, usize>
    ensures { result ≡ number_answer (number text.now) (number_stop text.now) }
{
    let most = most_digits(text);
    let mut value = 0;
    for (i, byte) in text.iter().enumerate() {
        if most <= i || !byte.is_ascii_digit() {
            return Err(i);
        }
        value = value * 10 + u32::from(*byte - b'0');
    }
    if text.is_empty() {
        return Err(0);
    }
    Ok(value)
}

// The codes of the words of each table of kinds, in its order: a word is compared once with each kind and not byte by byte.
static FORM_CODES: [u64; 8] = [
    0x170, // p
    0x1746f70, // top
    0x1626f74, // bot
    0x1616e64, // and
    0x16f72, // or
    0x1696d70, // imp
    0x173617973, // says
    0x17366, // sf
];

static STEP_CODES: [u64; 18] = [
    0x1616e64, // and
    0x16f7231, // or1
    0x16f7232, // or2
    0x1696d70, // imp
    0x173617973, // says
    0x1746f70, // top
    0x17366, // sf
    0x1757365, // use
    0x16c656674, // left
    0x17269676874, // right
    0x1746f, // to
    0x1686974, // hit
    0x170757368, // push
    0x173706c6974, // split
    0x163617365, // case
    0x1616273757264, // absurd
    0x164726f70, // drop
    0x16e6f7465, // note
];

static LOGIC_CODES: [u64; 2] = [
    0x1706c61696e, // plain
    0x1756e6974, // unit
];

// A word as one number: its bytes as digits to the base 256 behind a leading 1; 0 for a word of more than 7 bytes.
fn code_of(word: &[u8]) -> u64
    ensures { result ≡ code_of word.now }
{
    if 7 < word.len() {
        return 0;
    }
    let mut code = 1;
    for byte in word {
        code = code * 256 + u64::from(*byte);
    }
    code
}

// The place of the kind whose word has this code.
fn find_code(codes: &[u64], code: u64) -> Option<usize>
    ensures { result ≡ position (λ c. c == code) codes.now }
{
    codes.iter().position(|c| *c == code)
}

// The number of the kind with this word. Inlined, so that the codes are constants where they are compared.
#[inline(always)]
fn kind_number(kinds: &[Kind], codes: &[u64], word: &[u8]) -> Option<u16>
    requires few { are_few (listed kinds.now) ≡ true }
    requires coded { codes.now ≡ codes_of (listed kinds.now) }
    ensures { result ≡ kind_answer (kind_from 0 (listed kinds.now) word.now) }
{
    let at = find_code(codes, code_of(word))?;
    // No table is so long that a u16 does not hold its places.
    Some(at as u16)
}

// An operand, which stands where it is wanted and nowhere else: 0 where none is.
#[tactic(auto, using(crate::specs::Answers::ok_number), unfolding(crate::specs::Operands::operand_of))]
fn operand(item: Option<&[u8]>, wanted: bool) -> Option<u32>
    ensures { result ≡ operand_of (shown item.entry) wanted }
{
    match item {
        Some(text) if wanted => read_number(text).ok(),
        None if !wanted => Some(0),
        _ => None,
    }
}

// A kind's word, and then as many numbers as the kind has operands.
#[inline(always)]
fn row_in(kinds: &[Kind], codes: &[u64], value: &[u8]) -> Option<Items>
    requires few { are_few (listed kinds.now) ≡ true }
    requires coded { codes.now ≡ codes_of (listed kinds.now) }
    ensures { result ≡ row_answer (row_in (listed kinds.now) value.now) }
{
    let mut items = value.split(|byte| *byte == b' ');
    let word = items.next()?;
    let kind = kind_number(kinds, codes, word)?;
    let wanted = kinds[kind as usize].operands.len();
    // Two operands with names of their own: no list to go over.
    let left = operand(items.next(), 0 < wanted)?;
    let right = operand(items.next(), 1 < wanted)?;
    if items.next().is_some() {
        return None;
    }
    Some(Items { kind, left, right })
}

// The number of the logic whose word a value is.
#[tactic(auto, using(crate::specs::Rows::few_logics), unfolding(scope::specs::File::Kinds::logic_kinds, crate::specs::Codes::code_of, crate::specs::Codes::code_from))]
pub fn logic_number(value: &[u8]) -> Option<u16>
    ensures { result ≡ kind_answer (kind_from 0 logic_kinds value.now) }
{
    kind_number(logic_kinds(), &LOGIC_CODES, value)
}

// The value of a `form=` line: this and the two beside it say which table of the definition they promise.
#[tactic(auto, using(crate::specs::Rows::few_forms), unfolding(scope::specs::File::Kinds::form_kinds, crate::specs::Codes::code_of, crate::specs::Codes::code_from))]
pub fn form_row(value: &[u8]) -> Option<Items>
    ensures { result ≡ row_answer (row_in form_kinds value.now) }
{
    row_in(form_kinds(), &FORM_CODES, value)
}

// The value of a `step=` line.
#[tactic(auto, using(crate::specs::Rows::few_steps), unfolding(scope::specs::File::Kinds::step_kinds, crate::specs::Codes::code_of, crate::specs::Codes::code_from))]
pub fn step_row(value: &[u8]) -> Option<Items>
    ensures { result ≡ row_answer (row_in step_kinds value.now) }
{
    row_in(step_kinds(), &STEP_CODES, value)
}
