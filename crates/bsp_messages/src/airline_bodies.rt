//! The bodies by which an airline issues a memo and reduces one.

ghost use Rattle.std.specs.Prelude.{◌≡◌};
ghost use Rattle.serde_json.specs.View.{view};
ghost use Rattle.bsp_memos.specs.Reasons.{reason_reading};
ghost use Rattle.bsp_memos.specs.Texts.{kind_reading};
ghost use Rattle.bsp_messages.specs.Members.{value_at};
ghost use Rattle.bsp_messages.specs.Bodies.{Answers, body_of, issue_form, reduction_form};

use crate::body::read_value;
use crate::fault::BodyFault;
use crate::members::{agent_at, document_at, has_members, number_at, text_at};
use crate::values::StatedAgent;
use bsp_fields::DocNumber;
use bsp_memos::{MemoKind, Reason};
use serde_json::Value;
use std::alloc::Global;

/// A memo that an airline issues: `agent`, `amount`, `document`, `kind`, `reason`.
#[derive(Clone, Copy)]
pub struct MemoIssue {
    /// The agent to which it is issued.
    pub agent: StatedAgent,
    /// In minor units; nothing says that it is in range.
    pub amount: i64,
    /// Its document number.
    pub document: DocNumber,
    /// Debit or credit.
    pub kind: MemoKind,
    /// Its reason.
    pub reason: Reason,
}

/// A memo's new amount: `amount`, `document`.
#[derive(Clone, Copy)]
pub struct Reduction {
    /// In minor units; nothing says that it is in range.
    pub amount: i64,
    /// The document number of the memo.
    pub document: DocNumber,
}

fn kind_at(value: &Value, key: &str) -> Option<MemoKind>
    ensures { result ≡ value_at kind_reading key.now (view value.now) }
{
    MemoKind::read(text_at(value, key)?)
}

fn reason_at(value: &Value, key: &str) -> Option<Reason>
    ensures { result ≡ value_at reason_reading key.now (view value.now) }
{
    Reason::read(text_at(value, key)?.as_bytes())
}

fn issue_in(value: &Value) -> Option<MemoIssue>
    ensures { result ≡ issue_form (view value.now) }
{
    if !has_members(value, 5) {
        return None;
    }
    let Some(agent) = agent_at(value, "agent") else {
        return None;
    };
    let Some(amount) = number_at(value, "amount") else {
        return None;
    };
    let Some(document) = document_at(value, "document") else {
        return None;
    };
    let Some(kind) = kind_at(value, "kind") else {
        return None;
    };
    let Some(reason) = reason_at(value, "reason") else {
        return None;
    };
    Some(MemoIssue {
        agent,
        amount,
        document,
        kind,
        reason,
    })
}

fn reduction_in(value: &Value) -> Option<Reduction>
    ensures { result ≡ reduction_form (view value.now) }
{
    if !has_members(value, 2) {
        return None;
    }
    let Some(amount) = number_at(value, "amount") else {
        return None;
    };
    let Some(document) = document_at(value, "document") else {
        return None;
    };
    Some(Reduction { amount, document })
}

/// Reads the body of an airline's issue of a memo. It has `agent`, a text of eight digits;
/// `amount`, a whole number of minor units that fits an `i64`; and `document`, a text of ten
/// digits. It also has `kind`, `ADMA` or `ACMA`, and `reason`, a text of 1 to 40 characters from
/// 0x20 to 0x7E.
///
/// # Errors
///
/// `Malformed` where it is no such body; `NoRoom` where an allocation was refused.
pub fn read_issue(alloc: Global, body: &[u8]) -> Result<MemoIssue, BodyFault>
    ensures { Answers (body_of issue_form body.now) body.now result }
{
    let value = read_value(alloc, body)?;
    match issue_in(&value) {
        Some(found) => Ok(found),
        None => Err(BodyFault::Malformed),
    }
}

/// Reads the body of an airline's reduction of a memo: `amount`, a whole number of minor units that
/// fits an `i64`, and `document`, a text of ten digits.
///
/// # Errors
///
/// `Malformed` where it is no such body; `NoRoom` where an allocation was refused.
pub fn read_reduction(alloc: Global, body: &[u8]) -> Result<Reduction, BodyFault>
    ensures { Answers (body_of reduction_form body.now) body.now result }
{
    let value = read_value(alloc, body)?;
    reduction_in(&value).ok_or(BodyFault::Malformed)
}
