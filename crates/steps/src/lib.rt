// Steps, and the numbers of worlds, principals and clauses: reader, facts and judge share them.
#![tactic(auto)]

ghost use Rattle.std.specs.Prelude.{◌≡◌};
ghost use Rattle.steps.specs.Steps.{pair, pair_at, step_from, pair_of};

// The numbers of worlds, principals and clauses count separate things: none ever serves as another.
#[derive(Clone, Copy)]
pub struct World(pub u16);

#[derive(Clone, Copy)]
pub struct Principal(pub u16);

#[derive(Clone, Copy)]
pub struct Clause(pub u16);

// A step is one of eighteen kinds, two of which carry a number.
#[derive(Clone, Copy)]
pub enum Step {
    And,
    Or1,
    Or2,
    Imp,
    Says,
    Top,
    Sf,
    Use(Clause),
    Left,
    Right,
    To(World),
    Hit,
    Push,
    Split,
    Case,
    Absurd,
    Drop,
    Note,
}

// A step as a line or a table has it: its kind, and the number beside it.
#[derive(Clone, Copy)]
pub struct Pair {
    pub kind: u16,
    pub number: u16,
}

fn make_pair(kind: u16, number: u16) -> Pair
    ensures { result ≡ pair kind number }
{
    Pair { kind, number }
}

// The numbers of step number `i` of a table: 0 for what stands past its end.
#[tactic(auto, unfolding(crate::specs::Steps::pair_at))]
pub fn pair_at(steps: &[u16], i: u16) -> Pair
    ensures { result ≡ pair_at steps.now i }
{
    let at = 2 * usize::from(i);
    let kind = common::value_at(steps, at, 0);
    let number = common::value_at(steps, at + 1, 0);
    make_pair(kind, number)
}

// The step of a kind number and the number beside it, as lent tables have them for every language: a number that no kind has stands for the
// last one.
impl From<Pair> for Step {
    ghost from_gives = { λ p step. step ≡ step_from p.kind p.number };

    #[tactic(auto, unfolding(crate::specs::Steps::step_from))]
    fn from(pair: Pair) -> Step {
        let Pair { kind, number } = pair;
        match kind {
            0 => Step::And,
            1 => Step::Or1,
            2 => Step::Or2,
            3 => Step::Imp,
            4 => Step::Says,
            5 => Step::Top,
            6 => Step::Sf,
            7 => Step::Use(Clause(number)),
            8 => Step::Left,
            9 => Step::Right,
            10 => Step::To(World(number)),
            11 => Step::Hit,
            12 => Step::Push,
            13 => Step::Split,
            14 => Step::Case,
            15 => Step::Absurd,
            16 => Step::Drop,
            _ => Step::Note,
        }
    }
}

// The two numbers of a step: the number beside the kind is 0 where the kind carries none.
impl From<Step> for Pair {
    ghost from_gives = { λ step p. p ≡ pair_of step };

    #[tactic(auto, unfolding(crate::specs::Steps::pair_of))]
    fn from(step: Step) -> Pair {
        match step {
            Step::And => make_pair(0, 0),
            Step::Or1 => make_pair(1, 0),
            Step::Or2 => make_pair(2, 0),
            Step::Imp => make_pair(3, 0),
            Step::Says => make_pair(4, 0),
            Step::Top => make_pair(5, 0),
            Step::Sf => make_pair(6, 0),
            Step::Use(n) => make_pair(7, n.0),
            Step::Left => make_pair(8, 0),
            Step::Right => make_pair(9, 0),
            Step::To(v) => make_pair(10, v.0),
            Step::Hit => make_pair(11, 0),
            Step::Push => make_pair(12, 0),
            Step::Split => make_pair(13, 0),
            Step::Case => make_pair(14, 0),
            Step::Absurd => make_pair(15, 0),
            Step::Drop => make_pair(16, 0),
            Step::Note => make_pair(17, 0),
        }
    }
}
