// The rows of the formula table: three numbers a formula.
ghost use Rattle.std.specs.Prelude.{◌≡◌, eqb};
ghost use Rattle.common.specs.Rows.{kind_number, kind_of, row_at, row_put};

use crate::{put_at, value_at};

// The kinds of formulas, with the numbers that document 01 gives them.
#[derive(Clone, Copy, Debug, PartialEq, Eq)]
pub enum FormKind {
    Atom = 0,
    Top = 1,
    Bot = 2,
    And = 3,
    Or = 4,
    Imp = 5,
    Says = 6,
    Sf = 7,
}

impl FormKind {
    // The kind of a number, as lent tables have it for every language; none where no kind has it.
    #[tactic(auto, unfolding(crate::specs::Rows::kind_of))]
    pub fn of(number: u16) -> Option<Self>
        ensures { result ≡ kind_of number }
    {
        match number {
            0 => Some(FormKind::Atom),
            1 => Some(FormKind::Top),
            2 => Some(FormKind::Bot),
            3 => Some(FormKind::And),
            4 => Some(FormKind::Or),
            5 => Some(FormKind::Imp),
            6 => Some(FormKind::Says),
            7 => Some(FormKind::Sf),
            _ => None,
        }
    }
}

// The kind number and the operands of a formula, 0 where the kind lacks one.
#[derive(Clone, Copy, Debug, PartialEq, Eq)]
pub struct Row {
    pub kind: u16,
    pub left: u16,
    pub right: u16,
}

impl Row {
    #[tactic(auto, unfolding(crate::specs::Rows::kind_number))]
    pub fn is(self, kind: FormKind) -> bool
        ensures { result ≡ eqb self.kind (kind_number kind) }
    {
        self.kind == kind as u16
    }
}

// The row of formula number `i`: 0 for what stands past the end of the table.
#[tactic(auto, unfolding(crate::specs::Rows::row_at))]
pub fn row_at(forms: &[u16], i: u16) -> Row
    ensures { result ≡ row_at forms.now i }
{
    let at = 3 * usize::from(i);
    let kind = value_at(forms, at, 0);
    let left = value_at(forms, at + 1, 0);
    let right = value_at(forms, at + 2, 0);
    Row { kind, left, right }
}

// The row of formula number `i` stored: what passes the end is not.
#[tactic(auto, unfolding(crate::specs::Rows::row_put))]
pub fn put_row(forms: &mut [u16], i: u16, row: Row)
    ensures { forms.new ≡ row_put forms.old i row }
{
    let at = 3 * usize::from(i);
    put_at(forms, at, row.kind);
    put_at(forms, at + 1, row.left);
    put_at(forms, at + 2, row.right);
}
