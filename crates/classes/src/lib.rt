// The classes of a table's formulas, computed once from the first formula on: a formula's classes follow from those of its parts.
#![tactic(auto)]

ghost use Rattle.std.specs.Prelude.{◌≡◌, get_or};
ghost use Rattle.classes.specs.Class.{all_classes, and_class, or_class, imp_class, says_class, row_class, class_table};

use common::{FormKind, MOST_FORMULAS, Row, row_at};

// How many formulas a table of classes holds.
pub const FORMULAS: usize = MOST_FORMULAS as usize;

// Where a formula may stand.
#[derive(Clone, Copy, PartialEq, Eq)]
pub struct Class {
    pub goal: bool,
    pub policy: bool,
    pub clause: bool,
    pub chunk: bool,
}

impl Class {
    // What stands where no formula does.
    pub const NONE: Class = Class {
        goal: false,
        policy: false,
        clause: false,
        chunk: false,
    };

    // The classes of `top`, and of what is out of range.
    const ALL: Class = Class {
        goal: true,
        policy: true,
        clause: true,
        chunk: true,
    };
}

// The classes of the parts are lent and asked by `&`: for each row only what its kind asks is read, and without a branch.
#[tactic(auto, unfolding(crate::specs::Class::and_class, scope::specs::Logic::Form::both))]
fn and_class(left: &Class, right: &Class) -> Class
    ensures { result ≡ and_class left.now right.now }
{
    let clause = left.clause & right.clause;
    Class {
        goal: left.goal & right.goal,
        policy: clause,
        clause,
        chunk: left.chunk & right.chunk,
    }
}

#[tactic(auto, unfolding(crate::specs::Class::or_class, scope::specs::Logic::Form::both))]
fn or_class(left: &Class, right: &Class) -> Class
    ensures { result ≡ or_class left.now right.now }
{
    Class {
        goal: left.goal & right.goal,
        chunk: left.chunk & right.chunk,
        ..Class::NONE
    }
}

#[tactic(auto, unfolding(crate::specs::Class::imp_class, scope::specs::Logic::Form::both))]
fn imp_class(left: &Class, right: &Class) -> Class
    ensures { result ≡ imp_class left.now right.now }
{
    let goal = left.chunk & right.goal;
    let clause = left.goal & right.clause;
    Class {
        goal,
        policy: clause,
        clause,
        chunk: clause,
    }
}

#[tactic(auto, unfolding(crate::specs::Class::says_class))]
fn says_class(right: &Class) -> Class
    ensures { result ≡ says_class right.now }
{
    Class {
        goal: right.goal,
        policy: right.clause,
        clause: right.clause,
        chunk: right.clause,
    }
}

// A kind of no number means `top`.
#[tactic(auto, using(crate::proofs::Named::by_kind))]
fn row_class(row: Row, left: &Class, right: &Class) -> Class
    ensures { result ≡ row_class row.kind left.now right.now }
{
    match FormKind::of(row.kind) {
        Some(FormKind::Bot) => Class {
            goal: true,
            chunk: true,
            ..Class::NONE
        },
        Some(FormKind::And) => and_class(left, right),
        Some(FormKind::Or) => or_class(left, right),
        Some(FormKind::Imp) => imp_class(left, right),
        Some(FormKind::Says) => says_class(right),
        Some(FormKind::Sf) => Class {
            clause: false,
            ..Class::ALL
        },
        Some(FormKind::Atom | FormKind::Top) | None => Class::ALL,
    }
}

// The classes of one of the formulas before, those of `top` for any other.
fn class_before(before: &[Class], formula: u16) -> &Class
    ensures { result.now ≡ get_or before.now formula all_classes }
{
    before.get(usize::from(formula)).unwrap_or(&Class::ALL)
}

// The table is lent: it stands on the stack of a call once.
pub fn classes_of(forms: &[u16], formulas: u16, classes: &mut [Class; FORMULAS])
    ensures { classes.new ≡ class_table forms.now formulas }
{
    classes.fill(Class::NONE);
    for i in 0..formulas.min(MOST_FORMULAS) {
        let row = row_at(forms, i);
        let before = &classes[..usize::from(i)];
        let left = class_before(before, row.left);
        let right = class_before(before, row.right);
        classes[usize::from(i)] = row_class(row, left, right);
    }
}
