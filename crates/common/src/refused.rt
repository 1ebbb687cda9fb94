// What comes back: the refusals of document 01 by name, and the answer of every call.
ghost use Rattle.std.specs.Prelude.{◌≡◌};
ghost use Rattle.scope.specs.Call.Answer.{answer};
ghost use Rattle.common.specs.Refused.{number_of};
ghost use Rattle.common.specs.Answers.{answer_of};

// Why a file, a call or a step is refused, with the number that stands for it.
#[derive(Clone, Copy, Debug, PartialEq, Eq)]
pub enum Refusal {
    // The file is longer than a request can be.
    TooLong = 1,
    // A line of another shape, or the file's end in its place.
    Shape = 2,
    // A number outside what is allowed.
    Range = 3,
    // A formula that names itself or a later one.
    NotEarlier = 4,
    // A policy line or the goal of the wrong class.
    WrongClass = 5,
    // Bytes after the last step.
    BytesAfter = 6,
    // A step that does not fit the obligation.
    StepMisfit = 7,
    // No such world; or the number is no clause's.
    NoSuchNumber = 8,
    // A needed fact is absent, or it is another atom.
    FactAbsent = 9,
    // A step that fits and would pass a limit.
    LimitPassed = 10,
    // A step after everything is closed.
    AllClosed = 11,
    // The steps end with something open.
    LeftOpen = 12,
    // A lent table is too short.
    TableTooShort = 13,
    // The output is too short.
    OutputTooShort = 14,
    // A formula that is equal to an earlier one.
    Repeated = 15,
    // The logic unit, told with version 1.
    UnitInVersion1 = 16,
}

impl Refusal {
    // For callers in other languages, who know refusals by their numbers.
    #[tactic(auto, unfolding(crate::specs::Refused::number_of))]
    pub fn number(self) -> u16
        ensures { result ≡ number_of self }
    {
        self as u16
    }
}

// A refusal number of document 01, 0 where there is none, its place, and for 2 the column. Laid out for programs in other languages too.
#[repr(C)]
#[derive(Clone, Copy, Default)]
pub struct Answer {
    pub refusal: u16,
    pub place: u32,
    pub column: u16,
}

impl Answer {
    // A refusal that has no column.
    pub fn at(refusal: Refusal, place: u32) -> Self
        ensures { result ≡ answer_of (answer (number_of refusal) place) }
    {
        Answer {
            refusal: refusal.number(),
            place,
            column: 0,
        }
    }
}
