// What the parts of a file give, each beside the text behind it.
ghost use Rattle.std.specs.Prelude.{◌≤◌};
ghost use Rattle.scope.specs.Limits.{most_formulas};

use common::Answer;

// What a line or more gave, and the text behind it; or the answer about the first line that is refused.
pub(crate) type Parsed<'a, T> = Result<(T, &'a [u8]), Answer>;

// The version, and the logic that the first lines tell, as `Counts` tells them to other languages: 0 where they tell none.
#[derive(Clone, Copy)]
pub(crate) struct Start {
    pub(crate) version: u16,
    pub(crate) logic: u16,
}

// How many principals, atoms and formulas there are.
#[derive(Clone, Copy)]
pub(crate) struct Head {
    pub(crate) principals: u16,
    pub(crate) atoms: u16,
    pub(crate) formulas: u16,
    ghost few: { formulas ≤ most_formulas },
}

// How many policy lines there are, and the formula that is the goal.
#[derive(Clone, Copy)]
pub(crate) struct Policy {
    pub(crate) clauses: u16,
    pub(crate) goal: u16,
}
