// The gate: from the bytes of a file to the four numbers that are printed.
#![tactic(auto)]

ghost use Rattle.std.specs.Prelude.{◌≡◌};
ghost use Rattle.scope.specs.Call.Judge.{gate as gate'};
ghost use Rattle.gatelib.specs.Printing.{printed_of, unread_of};

use common::Answer;

// The refusal number, 0 where it is granted, the place, the steps read (0 if reading is refused), and for refusal 2 the column. Laid out for
// programs in other languages.
#[repr(C)]
#[derive(Clone, Copy)]
pub struct Printed {
    pub answer: u16,
    pub place: u32,
    pub steps: u16,
    pub column: u16,
}

// An answer with no steps read.
impl From<Answer> for Printed {
    ghost from_gives = { λ answer printed. printed ≡ unread_of answer };

    #[tactic(auto, unfolding(crate::specs::Printing::unread_of))]
    fn from(answer: Answer) -> Self {
        Printed {
            answer: answer.refusal,
            place: answer.place,
            steps: 0,
            column: answer.column,
        }
    }
}

pub fn gate(file: &[u8]) -> Printed
    ensures { result ≡ printed_of (gate' file.now) }
{
    let mut forms = [0u16; common::FORM_ROOM];
    let mut policy = [0u16; common::POLICY_ROOM];
    let mut steps = [0u16; common::STEP_ROOM];
    match reader::read_request(file, &mut forms, &mut policy, &mut steps) {
        Err(answer) => Printed::from(answer),
        Ok(counts) => {
            let answer = judge::judge(counts, &forms, &policy, &steps);
            Printed {
                steps: counts.steps,
                ..Printed::from(answer)
            }
        }
    }
}
