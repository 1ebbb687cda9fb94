// The kinds of `form=`, `step=` and `logic=` lines as data, as scope/specs/File/Kinds lists them.
ghost use Rattle.std.specs.Prelude.{◌≡◌};
ghost use Rattle.scope.specs.File.Kinds.{form_kinds, step_kinds, logic_kinds};
ghost use Rattle.common.specs.Kinds.{listed};

use Sort::{Atom, Clause, Formula, Principal, World};

// What an operand's number counts.
#[derive(Clone, Copy, PartialEq, Eq, Debug)]
pub enum Sort {
    Atom,
    Principal,
    Formula,
    Clause,
    World,
}

// The word that a line of this kind begins with, and the operands behind it.
#[derive(Clone, Copy)]
pub struct Kind {
    pub word: &'static [u8],
    pub operands: &'static [Sort],
}

static FORMS: [Kind; 8] = [
    Kind {
        word: b"p",
        operands: &[Atom],
    },
    Kind {
        word: b"top",
        operands: &[],
    },
    Kind {
        word: b"bot",
        operands: &[],
    },
    Kind {
        word: b"and",
        operands: &[Formula, Formula],
    },
    Kind {
        word: b"or",
        operands: &[Formula, Formula],
    },
    Kind {
        word: b"imp",
        operands: &[Formula, Formula],
    },
    Kind {
        word: b"says",
        operands: &[Principal, Formula],
    },
    Kind {
        word: b"sf",
        operands: &[Principal, Principal],
    },
];

static STEPS: [Kind; 18] = [
    Kind {
        word: b"and",
        operands: &[],
    },
    Kind {
        word: b"or1",
        operands: &[],
    },
    Kind {
        word: b"or2",
        operands: &[],
    },
    Kind {
        word: b"imp",
        operands: &[],
    },
    Kind {
        word: b"says",
        operands: &[],
    },
    Kind {
        word: b"top",
        operands: &[],
    },
    Kind {
        word: b"sf",
        operands: &[],
    },
    Kind {
        word: b"use",
        operands: &[Clause],
    },
    Kind {
        word: b"left",
        operands: &[],
    },
    Kind {
        word: b"right",
        operands: &[],
    },
    Kind {
        word: b"to",
        operands: &[World],
    },
    Kind {
        word: b"hit",
        operands: &[],
    },
    Kind {
        word: b"push",
        operands: &[],
    },
    Kind {
        word: b"split",
        operands: &[],
    },
    Kind {
        word: b"case",
        operands: &[],
    },
    Kind {
        word: b"absurd",
        operands: &[],
    },
    Kind {
        word: b"drop",
        operands: &[],
    },
    Kind {
        word: b"note",
        operands: &[],
    },
];

static LOGICS: [Kind; 2] = [
    Kind {
        word: b"plain",
        operands: &[],
    },
    Kind {
        word: b"unit",
        operands: &[],
    },
];

#[tactic(auto, unfolding(scope::specs::File::Kinds::form_kinds))]
pub fn form_kinds() -> &'static [Kind]
    ensures { listed result.now ≡ form_kinds }
{
    &FORMS
}

#[tactic(auto, unfolding(scope::specs::File::Kinds::step_kinds))]
pub fn step_kinds() -> &'static [Kind]
    ensures { listed result.now ≡ step_kinds }
{
    &STEPS
}

#[tactic(auto, unfolding(scope::specs::File::Kinds::logic_kinds))]
pub fn logic_kinds() -> &'static [Kind]
    ensures { listed result.now ≡ logic_kinds }
{
    &LOGICS
}
