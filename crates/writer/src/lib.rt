// The writer: the text of lent tables, or the refusal of what no text says.
#![tactic(auto)]

use common::{Answer, Counts, Refusal};
use sections::put_request;

mod output;
mod sections;

ghost use Rattle.std.specs.Prelude.{◌≡◌, length, replicate};
ghost use Rattle.scope.specs.Call.Calls.{writing, output_after};
ghost use Rattle.checks.specs.Met.{lent_with};
ghost use Rattle.writer.specs.Writing.{writing_of, refused_as};

// The refusal, 0 where there is none, its place, and the text's length, 0 if refused. Laid out for programs in other languages.
#[repr(C)]
#[derive(Clone, Copy, Default)]
pub struct Writing {
    pub refusal: u16,
    pub place: u32,
    pub length: usize,
}

impl From<Answer> for Writing {
    ghost from_gives = { λ answer written. written ≡ refused_as answer };

    #[tactic(auto, unfolding(crate::specs::Writing::refused_as))]
    fn from(answer: Answer) -> Self {
        Writing {
            refusal: answer.refusal,
            place: answer.place,
            length: 0,
        }
    }
}

// Zeros throughout: what a text is put into, and what a refusal leaves.
fn zero_bytes(out: &mut [u8])
    ensures { out.new ≡ replicate (length out.old) 0 }
{
    out.fill(0);
}

pub fn write(
    counts: Counts,
    forms: &[u16],
    policy: &[u16],
    steps: &[u16],
    out: &mut [u8],
) -> Writing
    ensures answered { result ≡ writing_of (writing (lent_with counts forms.now policy.now steps.now) (length out.old)) }
    ensures output { out.new ≡ output_after (length out.old) (writing (lent_with counts forms.now policy.now steps.now) (length out.old)) }
{
    zero_bytes(out);
    if let Err(answer) = checks::check_tables(counts, forms, policy, steps) {
        return Writing::from(answer);
    }
    let length = put_request(counts, forms, policy, steps, out);
    if out.len() < length {
        zero_bytes(out);
        return Writing::from(Answer::at(Refusal::OutputTooShort, 0));
    }
    Writing {
        length,
        ..Writing::default()
    }
}
