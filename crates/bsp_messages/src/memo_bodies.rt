//! The bodies that name a memo.

ghost use Rattle.std.specs.Prelude.{◌≡◌};
ghost use Rattle.serde_json.specs.View.{view};
ghost use Rattle.bsp_messages.specs.Bodies.{Answers, body_of, named_memo_form, document_form};

use crate::body::read_value;
use crate::fault::BodyFault;
use crate::members::{airline_at, document_at, has_members};
use bsp_fields::{AirlineCode, DocNumber};
use serde_json::Value;
use std::alloc::Global;

/// A memo as its agent names it: `airline`, `document`.
#[derive(Clone, Copy)]
pub struct NamedMemo {
    /// The airline that issued it.
    pub airline: AirlineCode,
    /// Its document number.
    pub document: DocNumber,
}

fn named_memo_in(value: &Value) -> Option<NamedMemo>
    ensures { result ≡ named_memo_form (view value.now) }
{
    if !has_members(value, 2) {
        return None;
    }
    let Some(airline) = airline_at(value, "airline") else {
        return None;
    };
    let Some(document) = document_at(value, "document") else {
        return None;
    };
    Some(NamedMemo { airline, document })
}

fn document_in(value: &Value) -> Option<DocNumber>
    ensures { result ≡ document_form (view value.now) }
{
    if !has_members(value, 1) {
        return None;
    }
    document_at(value, "document")
}

/// Reads the body of an agent's `dispute` and `agree`: `airline`, a text of three digits, and
/// `document`, a text of ten.
///
/// # Errors
///
/// `Malformed` where it is no such body; `NoRoom` where an allocation was refused.
pub fn read_named_memo(alloc: Global, body: &[u8]) -> Result<NamedMemo, BodyFault>
    ensures { Answers (body_of named_memo_form body.now) body.now result }
{
    let value = read_value(alloc, body)?;
    named_memo_in(&value).ok_or(BodyFault::Malformed)
}

/// Reads the body of an airline's `uphold` and `withdraw`: `document`, a text of ten digits.
///
/// # Errors
///
/// `Malformed` where it is no such body; `NoRoom` where an allocation was refused.
pub fn read_memo_document(alloc: Global, body: &[u8]) -> Result<DocNumber, BodyFault>
    ensures { Answers (body_of document_form body.now) body.now result }
{
    let value = read_value(alloc, body)?;
    document_in(&value).ok_or(BodyFault::Malformed)
}
