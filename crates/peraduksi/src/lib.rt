// Reader, writer, judge and gate for programs in other languages: `include/peraduksi.h` declares them for C, and the crate in `rust` wraps
// them. A slice is a pointer and the count of its elements. None relies on a check made before.
#![tactic(auto)]

ghost use Rattle.std.specs.Prelude.{◌≡◌, length};
ghost use Rattle.scope.specs.Call.Calls.{reading, form_table_after, policy_table_after, step_table_after, writing, output_after};
ghost use Rattle.scope.specs.Call.Judge.{judge as judge', gate as gate'};
ghost use Rattle.checks.specs.Met.{lent_with};
ghost use Rattle.writer.specs.Writing.{writing_of};
ghost use Rattle.common.specs.Answers.{answer_of};
ghost use Rattle.gatelib.specs.Printing.{printed_of};
ghost use Rattle.peraduksi.specs.Read.{read_of, read_in};

use common::{Answer, Counts};
use gatelib::Printed;
use writer::Writing;

// The refusal, 0 where there is none, its place, for 2 the column, and version and logic, the counts and the goal, all 0 if refused.
#[repr(C)]
#[derive(Clone, Copy, Default)]
pub struct Read {
    pub refusal: u16,
    pub place: u32,
    pub column: u16,
    pub counts: Counts,
}

// Both structs are laid out for other languages, so one is copied into the other.
impl From<Result<Counts, Answer>> for Read {
    ghost from_gives = { λ got read. read ≡ read_in got };

    #[tactic(auto, unfolding(crate::specs::Read::read_in))]
    fn from(got: Result<Counts, Answer>) -> Self {
        match got {
            Ok(counts) => Read {
                counts,
                ..Read::default()
            },
            Err(answer) => Read {
                refusal: answer.refusal,
                place: answer.place,
                column: answer.column,
                counts: Counts::default(),
            },
        }
    }
}

#[unsafe(no_mangle)]
pub extern "C" fn peraduksi_read(
    text: &[u8],
    forms: &mut [u16],
    policy: &mut [u16],
    steps: &mut [u16],
) -> Read
    ensures value { result ≡ read_of (reading (length forms.old) (length policy.old) (length steps.old) text.now) }
    ensures forms_after { forms.new ≡ form_table_after (length forms.old) (reading (length forms.old) (length policy.old) (length steps.old) text.now) }
    ensures policy_after { policy.new ≡ policy_table_after (length policy.old) (reading (length forms.old) (length policy.old) (length steps.old) text.now) }
    ensures steps_after { steps.new ≡ step_table_after (length steps.old) (reading (length forms.old) (length policy.old) (length steps.old) text.now) }
{
    Read::from(reader::read_request(text, forms, policy, steps))
}

#[unsafe(no_mangle)]
pub extern "C" fn peraduksi_write(
    counts: Counts,
    forms: &[u16],
    policy: &[u16],
    steps: &[u16],
    out: &mut [u8],
) -> Writing
    ensures value { result ≡ writing_of (writing (lent_with counts forms.now policy.now steps.now) (length out.old)) }
    ensures out_after { out.new ≡ output_after (length out.old) (writing (lent_with counts forms.now policy.now steps.now) (length out.old)) }
{
    writer::write(counts, forms, policy, steps, out)
}

#[unsafe(no_mangle)]
pub extern "C" fn peraduksi_judge(
    counts: Counts,
    forms: &[u16],
    policy: &[u16],
    steps: &[u16],
) -> Answer
    ensures { result ≡ answer_of (judge' (lent_with counts forms.now policy.now steps.now)) }
{
    judge::judge(counts, forms, policy, steps)
}

#[unsafe(no_mangle)]
pub extern "C" fn peraduksi_gate(file: &[u8]) -> Printed
    ensures { result ≡ printed_of (gate' file.now) }
{
    gatelib::gate(file)
}
