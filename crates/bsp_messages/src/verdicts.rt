//! The text of a RET file's verdicts, written verdict by verdict: no value of `serde_json` is made for it.

ghost use Rattle.std.specs.Prelude.{◌≡◌, ◌++◌, codes, IfOk, OnOk};
ghost use Rattle.serde_json.specs.Written.{compact_text};
ghost use Rattle.bsp_messages.specs.Answers.{list_object, verdict_object, verdicts_from};
ghost use Rattle.bsp_messages.specs.VerdictTexts.{outcome_text};

use crate::lists::push_comma;
use bsp_rules::Verdict;
use itoa::Buffer;
use std::alloc::{AllocError, Global};

/// Appends three texts, one after another.
fn push_parts(
    text: &mut Vec<u8>,
    first: &[u8],
    middle: &[u8],
    last: &[u8],
) -> Result<(), AllocError>
    ensures { OnOk result (text.new.items ≡ text.old.items ++ (first.now ++ (middle.now ++ last.now))) }
{
    text.extend_from_slice(first)?;
    text.extend_from_slice(middle)?;
    text.extend_from_slice(last)?;
    Ok(())
}

/// Appends what follows the number in the object of a verdict.
fn push_outcome(text: &mut Vec<u8>, verdict: Verdict) -> Result<(), AllocError>
    ensures { OnOk result (text.new.items ≡ text.old.items ++ outcome_text verdict) }
{
    match verdict {
        Verdict::Accepted(period) => {
            let rest = b"\",\"verdict\":\"accepted\"}";
            push_parts(text, b",\"period\":\"", &period.digits(), rest)
        }
        Verdict::Held(period) => {
            let rest = b"\",\"verdict\":\"held\"}";
            push_parts(text, b",\"period\":\"", &period.digits(), rest)
        }
        Verdict::Refused(refusal) => {
            push_parts(text, b",\"verdict\":\"", refusal.code().as_bytes(), b"\"}")
        }
    }
}

/// Appends the object of a verdict.
fn push_verdict(text: &mut Vec<u8>, number: u64, verdict: Verdict) -> Result<(), AllocError>
    ensures { OnOk result (text.new.items ≡ text.old.items ++ compact_text (verdict_object number verdict)) }
{
    let mut buffer = Buffer::new();
    text.extend_from_slice(b"{\"n\":")?;
    text.extend_from_slice(buffer.format(number).as_bytes())?;
    push_outcome(text, verdict)?;
    Ok(())
}

/// The body `{"results":[..]}`.
pub(crate) fn results_text(alloc: Global, verdicts: &[Verdict]) -> Result<Vec<u8>, AllocError>
    ensures { IfOk result (λ text. text.items ≡ compact_text (list_object (codes "results") (verdicts_from 1 verdicts.now))) }
{
    let mut text = Vec::from_slice(alloc, b"{\"results\":[")?;
    for (index, verdict) in verdicts.iter().enumerate() {
        push_comma(&mut text, index)?;
        push_verdict(&mut text, index as u64 + 1, *verdict)?;
    }
    text.extend_from_slice(b"]}")?;
    Ok(text)
}
