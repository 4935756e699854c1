//! The lines of verdicts.

ghost use Rattle.std.specs.Prelude.{◌≡◌, ◌++◌, OnOk};
ghost use Rattle.bsp_judge.specs.Judged.{verdict_line, verdict_lines};

use bsp_fields::write_digits;
use bsp_plan_trial::push_fields;
use bsp_rules::Verdict;
use std::alloc::AllocError;

/// Appends the line of a verdict.
#[tactic(auto, unfolding(crate::specs::Judged::verdict_line))]
fn push_verdict(text: &mut Vec<u8>, number: u64, verdict: Verdict) -> Result<(), AllocError>
    ensures { OnOk result (text.new.items ≡ text.old.items ++ verdict_line number verdict) }
{
    let number: [u8; 6] = write_digits(number);
    match verdict {
        Verdict::Accepted(period) => {
            push_fields(
                text,
                &[&number, b" ", b"accepted ", &period.digits(), b"\n"],
            )
        }
        Verdict::Held(period) => {
            push_fields(text, &[&number, b" ", b"held ", &period.digits(), b"\n"])
        }
        Verdict::Refused(refusal) => {
            push_fields(text, &[&number, b" ", refusal.code().as_bytes(), b"\n"])
        }
    }
}

/// Appends a line for each verdict.
pub(crate) fn push_verdicts(text: &mut Vec<u8>, verdicts: &[Verdict]) -> Result<(), AllocError>
    ensures { OnOk result (text.new.items ≡ text.old.items ++ verdict_lines 1 verdicts.now) }
{
    for (index, verdict) in verdicts.iter().enumerate() {
        push_verdict(text, index as u64 + 1, *verdict)?;
    }
    Ok(())
}
