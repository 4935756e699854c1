//! The objects of answers, as values of `serde_json` and as their texts.

ghost use Rattle.std.specs.Prelude.{◌≡◌, ℕ, List, Some, IfOk, OnOk, codes, false};
ghost use Rattle.serde_json.specs.Data.{Data, boolean, no_members, number, object as whole, put, string, unsigned};
ghost use Rattle.serde_json.specs.Find.{of_integer};
ghost use Rattle.bsp_fields.specs.Decimal.{fixed_digits};
ghost use Rattle.bsp_fields.specs.Days.{day_text};
ghost use Rattle.bsp_fields.specs.Money.{money_text};
ghost use Rattle.bsp_memos.specs.Texts.{kind_text, state_text as memo_state_text};
ghost use Rattle.serde_json.specs.View.{members_view, view};
ghost use Rattle.serde_json.specs.Written.{compact_text, has_float};
ghost use Rattle.bsp_ret.specs.RetRecordsTexts.{code_text};
ghost use Rattle.bsp_rules.specs.Amounts.{amount_or_zero, card_amount, commission_amount};
ghost use Rattle.bsp_messages.specs.Answers.{state_text, billed_value, document_object, memo_object, period_object, range_object, record_object};

use crate::answer::{DocumentShown, PeriodShown, RangeShown};
use bsp_fields::{NoRoom, PeriodCode, write_money};
use bsp_memos::MemoFields;
use bsp_ret::{RetFault, Transaction};
use bsp_rules::{amount_or_zero, card_amount, commission_amount};
use serde_json::{Map, Value};
use std::alloc::{AllocError, Global};
use std::fmt::Display;
use std::str;

/// Puts a member into an object.
fn put(
    alloc: Global,
    object: &mut Map<String, Value>,
    key: &str,
    value: Value,
) -> Result<(), AllocError>
    ensures { OnOk result (members_view object.new.entries ≡ put key.now (view value) (members_view object.old.entries)) }
{
    object.insert(String::from_str(alloc, key)?, value)?;
    Ok(())
}

/// Puts a text into an object.
fn put_text(
    alloc: Global,
    object: &mut Map<String, Value>,
    key: &str,
    text: &str,
) -> Result<(), AllocError>
    ensures { OnOk result (members_view object.new.entries ≡ put key.now (string text.now) (members_view object.old.entries)) }
{
    put(
        alloc,
        object,
        key,
        Value::String(String::from_str(alloc, text)?),
    )
}

/// Puts what is displayed into an object, as a text.
fn put_shown<D: Display>(
    alloc: Global,
    object: &mut Map<String, Value>,
    key: &str,
    shown: &D,
) -> Result<(), AllocError>
    ensures { OnOk result ((text : List ℕ) → D.output shown.now ≡ Some text → members_view object.new.entries ≡ put key.now (string text) (members_view object.old.entries)) }
{
    put(
        alloc,
        object,
        key,
        Value::String(format!(in alloc; "{}", *shown)?),
    )
}

/// The text of an object of these members, none of which is a float.
fn object_text(alloc: Global, object: Map<String, Value>) -> Result<Vec<u8>, AllocError>
    ensures { (shown : Data) → whole (members_view object.entries) ≡ shown → has_float shown ≡ false → IfOk result (λ text. text.items ≡ compact_text shown) }
{
    Value::Object(object).to_vec(alloc)
}

/// Puts the numbers of a range, and how many of them are used, into an object.
fn put_range(
    alloc: Global,
    object: &mut Map<String, Value>,
    shown: &RangeShown,
) -> Result<(), AllocError>
    ensures { OnOk result (members_view object.new.entries ≡ put (codes "used") (number (unsigned shown.now.used)) (put (codes "last") (string (fixed_digits 10 shown.now.range.last)) (put (codes "first") (string (fixed_digits 10 shown.now.range.first)) (members_view object.old.entries)))) }
{
    put_shown(alloc, object, "first", &shown.range.first)?;
    put_shown(alloc, object, "last", &shown.range.last)?;
    put(alloc, object, "used", Value::from(shown.used))?;
    Ok(())
}

/// The text of a range, `{"first":"..","last":"..","used":1}`.
pub(crate) fn range_text(alloc: Global, shown: &RangeShown) -> Result<Vec<u8>, AllocError>
    ensures { IfOk result (λ text. text.items ≡ compact_text (range_object shown.now)) }
{
    let mut object = Map::new(alloc);
    put_range(alloc, &mut object, shown)?;
    object_text(alloc, object)
}

/// The period in which a memo is billed, or null.
fn billed_value(alloc: Global, billed: Option<PeriodCode>) -> Result<Value, AllocError>
    ensures { IfOk result (λ value. view value ≡ billed_value billed) }
{
    match billed {
        Some(period) => Ok(Value::String(format!(in alloc; "{period}")?)),
        None => Ok(Value::Null),
    }
}

/// Puts the parties, the amount and the period of billing of a memo into an object.
fn put_parties(
    alloc: Global,
    object: &mut Map<String, Value>,
    memo: &MemoFields,
) -> Result<(), AllocError>
    ensures { OnOk result (members_view object.new.entries ≡ put (codes "billed") (billed_value memo.now.billed) (put (codes "amount") (number (of_integer memo.now.amount)) (put (codes "airline") (string (fixed_digits 3 memo.now.airline)) (put (codes "agent") (string (fixed_digits 8 memo.now.agent)) (members_view object.old.entries))))) }
{
    put_shown(alloc, object, "agent", &memo.agent)?;
    put_shown(alloc, object, "airline", &memo.airline)?;
    put(alloc, object, "amount", Value::from(memo.amount.get()))?;
    put(alloc, object, "billed", billed_value(alloc, memo.billed)?)?;
    Ok(())
}

/// Puts the document, the day of issue, the kind, the reason and the state of a memo into an object.
fn put_terms(
    alloc: Global,
    object: &mut Map<String, Value>,
    memo: &MemoFields,
) -> Result<(), AllocError>
    ensures { OnOk result (members_view object.new.entries ≡ put (codes "state") (string (memo_state_text memo.now.state)) (put (codes "reason") (string memo.now.reason) (put (codes "kind") (string (kind_text memo.now.kind)) (put (codes "issued") (string (day_text memo.now.issued)) (put (codes "document") (string (fixed_digits 10 memo.now.document)) (members_view object.old.entries)))))) }
{
    put_shown(alloc, object, "document", &memo.document)?;
    put_shown(alloc, object, "issued", &memo.issued)?;
    put_text(alloc, object, "kind", memo.kind.code())?;
    put_text(alloc, object, "reason", memo.reason.as_str())?;
    put_text(alloc, object, "state", memo.state.word())?;
    Ok(())
}

/// Puts the fields of a memo into an object that has no members.
fn put_memo(
    alloc: Global,
    object: &mut Map<String, Value>,
    memo: &MemoFields,
) -> Result<(), AllocError>
    ensures { OnOk result (members_view object.old.entries ≡ no_members → whole (members_view object.new.entries) ≡ memo_object memo.now) }
{
    put_parties(alloc, object, memo)?;
    put_terms(alloc, object, memo)
}

/// The text of a memo.
pub(crate) fn memo_text(alloc: Global, memo: &MemoFields) -> Result<Vec<u8>, AllocError>
    ensures { IfOk result (λ text. text.items ≡ compact_text (memo_object memo.now)) }
{
    let mut object = Map::new(alloc);
    put_memo(alloc, &mut object, memo)?;
    object_text(alloc, object)
}

/// Puts the airline, the cash, the code and the commission of a transaction into an object.
fn put_sale(
    alloc: Global,
    object: &mut Map<String, Value>,
    transaction: &Transaction,
) -> Result<(), AllocError>
    ensures { OnOk result (members_view object.new.entries ≡ put (codes "commission") (number (of_integer (commission_amount transaction.now.amounts))) (put (codes "code") (string (code_text transaction.now.code)) (put (codes "cash") (number (of_integer (amount_or_zero transaction.now.cash))) (put (codes "airline") (string (fixed_digits 3 transaction.now.document.airline)) (members_view object.old.entries))))) }
{
    let code = transaction.code.text();
    let Ok(code) = str::from_utf8(&code) else {
        unreachable!()
    };
    put_shown(alloc, object, "airline", &transaction.document.airline)?;
    put(
        alloc,
        object,
        "cash",
        Value::from(amount_or_zero(transaction.cash)),
    )?;
    put_text(alloc, object, "code", code)?;
    put(
        alloc,
        object,
        "commission",
        Value::from(commission_amount(&transaction.amounts)),
    )?;
    Ok(())
}

/// Puts the credit, the day of issue, the period and the state of a document into an object.
fn put_state(
    alloc: Global,
    object: &mut Map<String, Value>,
    shown: &DocumentShown,
) -> Result<(), AllocError>
    ensures { OnOk result (members_view object.new.entries ≡ put (codes "state") (string (state_text shown.now.state)) (put (codes "period") (string (fixed_digits 5 shown.now.item.period)) (put (codes "issued") (string (day_text shown.now.item.transaction.issued)) (put (codes "credit") (number (of_integer (card_amount shown.now.item.transaction.credit))) (members_view object.old.entries))))) }
{
    let transaction = &shown.item.transaction;
    put(
        alloc,
        object,
        "credit",
        Value::from(card_amount(transaction.credit)),
    )?;
    put_shown(alloc, object, "issued", &transaction.issued)?;
    put_shown(alloc, object, "period", &shown.item.period)?;
    put_text(alloc, object, "state", shown.state.word())?;
    Ok(())
}

/// The text of a document.
pub(crate) fn document_text(alloc: Global, shown: &DocumentShown) -> Result<Vec<u8>, AllocError>
    ensures { IfOk result (λ text. text.items ≡ compact_text (document_object shown.now)) }
{
    let mut object = Map::new(alloc);
    put_sale(alloc, &mut object, &shown.item.transaction)?;
    put_state(alloc, &mut object, shown)?;
    object_text(alloc, object)
}

/// Puts whether a period is closed, and its documents, into an object.
fn put_counts(
    alloc: Global,
    object: &mut Map<String, Value>,
    shown: &PeriodShown,
) -> Result<(), AllocError>
    ensures { OnOk result (members_view object.new.entries ≡ put (codes "documents") (number (unsigned shown.now.documents)) (put (codes "closed") (boolean shown.now.closed) (members_view object.old.entries))) }
{
    put(alloc, object, "closed", Value::Bool(shown.closed))?;
    put(alloc, object, "documents", Value::from(shown.documents))?;
    Ok(())
}

/// Puts the net of a period, and its code, into an object.
fn put_net(
    alloc: Global,
    object: &mut Map<String, Value>,
    shown: &PeriodShown,
) -> Result<(), NoRoom>
    ensures { OnOk result (members_view object.new.entries ≡ put (codes "period") (string (fixed_digits 5 shown.now.period)) (put (codes "net") (string (money_text shown.now.net)) (members_view object.old.entries))) }
{
    put(
        alloc,
        object,
        "net",
        Value::String(write_money(alloc, shown.net)?),
    )?;
    put_shown(alloc, object, "period", &shown.period)?;
    Ok(())
}

/// The text of a period.
pub(crate) fn period_text(alloc: Global, shown: &PeriodShown) -> Result<Vec<u8>, NoRoom>
    ensures { IfOk result (λ text. text.items ≡ compact_text (period_object shown.now)) }
{
    let mut object = Map::new(alloc);
    put_counts(alloc, &mut object, shown)?;
    put_net(alloc, &mut object, shown)?;
    Ok(object_text(alloc, object)?)
}

/// The text of the fault of a RET file, `{"code":"F05","record":3}`.
pub(crate) fn record_text(alloc: Global, fault: RetFault) -> Result<Vec<u8>, AllocError>
    ensures { IfOk result (λ text. text.items ≡ compact_text (record_object fault.code fault.at)) }
{
    let code = fault.code.text();
    let Ok(code) = str::from_utf8(&code) else {
        unreachable!()
    };
    let mut object = Map::new(alloc);
    put_text(alloc, &mut object, "code", code)?;
    put(alloc, &mut object, "record", Value::from(fault.at))?;
    object_text(alloc, object)
}
