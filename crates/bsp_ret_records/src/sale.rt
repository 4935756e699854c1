//! Record 2, basic sale data.

ghost use Rattle.std.specs.Prelude.{◌≡◌, length, true, false, Some, IfSome, IfNone};
ghost use Rattle.bsp_ret_records.specs.Records.{IsFit, agent_and_document, agent, document, issued, passenger, code_of, sale_fits};
ghost use Rattle.bsp_ret_records.specs.Values.{IsSale};

use crate::codes::TransactionCode;
use crate::columns::{array_of, day_of, document_of};
use crate::transactions::Sale;
use bsp_fields::{all_digits, all_spaces, is_record_day};

/// The agent's eight digits and the document's fourteen.
#[inline]
fn agent_and_document(line: &[u8]) -> &[u8]
    requires { length line.now ≡ 136 }
    ensures columns { result.now ≡ agent_and_document line.now }
    ensures wide { length result.now ≡ 22 }
{
    &line[11..33]
}

#[inline]
fn agent(line: &[u8]) -> &[u8]
    requires { length line.now ≡ 136 }
    ensures { result.now ≡ agent line.now }
{
    &agent_and_document(line)[..8]
}

#[inline]
fn document(line: &[u8]) -> &[u8]
    requires { length line.now ≡ 136 }
    ensures columns { result.now ≡ document line.now }
    ensures wide { length result.now ≡ 14 }
{
    &agent_and_document(line)[8..22]
}

#[inline]
fn issued(line: &[u8]) -> &[u8]
    requires { length line.now ≡ 136 }
    ensures { result.now ≡ issued line.now }
{
    &line[33..39]
}

/// The code of a record 2.
#[tactic(auto, unfolding(crate::specs::Records::code_of))]
fn code_of(line: &[u8]) -> Option<TransactionCode>
    requires { length line.now ≡ 136 }
    ensures { result ≡ code_of line.now }
{
    match &line[7..11] {
        b"TKTT" => Some(TransactionCode::Tktt),
        b"RFND" => Some(TransactionCode::Rfnd),
        b"CANX" => Some(TransactionCode::Canx),
        _ => None,
    }
}

/// The code of a record 2 whose other fields fit.
#[tactic(auto, unfolding(crate::specs::Records::sale_fits))]
pub fn sale_code(line: &[u8]) -> Option<TransactionCode>
    requires { length line.now ≡ 136 }
    ensures some { IfSome result (λ code. (sale_fits line.now ≡ true) × (code_of line.now ≡ Some code)) }
    ensures none { IfNone result (sale_fits line.now ≡ false) }
{
    let code = code_of(line)?;
    let fits = all_digits(agent_and_document(line))
        && is_record_day(issued(line))
        && all_spaces(&line[88..136]);
    if fits { Some(code) } else { None }
}

/// The values of a record 2.
pub fn sale_values(line: &[u8]) -> Sale
    requires { IsFit sale_fits line.now }
    ensures { IsSale line.now result }
{
    let Some(code) = code_of(line) else {
        unreachable!()
    };
    Sale {
        code,
        agent: array_of::<8>(agent(line)),
        document: document_of(document(line)),
        issued: day_of(issued(line)),
    }
}

/// The passenger of a record 2.
pub fn sale_passenger(line: &[u8]) -> [u8; 49]
    requires { length line.now ≡ 136 }
    ensures { result ≡ passenger line.now }
{
    array_of::<49>(&line[39..88])
}
