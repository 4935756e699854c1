//! The values that have one column each.

ghost use Rattle.std.specs.Prelude.{◌≡◌, ◌<◌, ◌^◌, IsTrue, length, Some, true};
ghost use Rattle.sqlite_value.specs.declared.value.Value.TheVariants.{Int, Text};
ghost use Rattle.bsp_store_columns.specs.Values.{agent_text, airline_text, count, flag, IsAgent, number_text, period_text, taxes_text};
ghost use Rattle.bsp_store_columns.specs.Reading.{kind_in, state_in};
ghost use Rattle.bsp_rows.specs.Days.{day_number};
ghost use Rattle.bsp_rows.specs.GroupValues.{are_taxes};
ghost use Rattle.bsp_rows.specs.RetRecordsTexts.{code_text};
ghost use Rattle.bsp_rows.specs.Stored.{InEach, IsStoredAmount, IsStoredTax};
ghost use Rattle.bsp_rows.specs.CivilDay.{is_day};
ghost use Rattle.bsp_rows.specs.Texts.{kind_text, state_text};
ghost use Rattle.bsp_rows.specs.Letters.{currency_reading};
ghost use Rattle.bsp_rows.specs.Reasons.{is_reason};
ghost use Rattle.bsp_rows.specs.Tokens.{is_token};
ghost use Rattle.sqlite_value.specs.Order.{column};

use crate::column::{Column, Filled};
use crate::tax_places::written_taxes;
use crate::{agent_at, airline_at, amount_at, below_at, day_at, int_at, number_at, period_at};
use bsp_rows::{
    AgentCode, AirlineCode, Amount, Currency, Day, DocNumber, MemoKind, MemoState, PeriodCode,
    Reason, Tax, Token, TransactionCode,
};
use sqlite::Row;
use sqlite_value::value::ValueRef;
use std::str;

// ---- codes

impl Column for AgentCode {
    ghost cell = { agent_text };

    ghost is_formed = { IsAgent };

    #[tactic(auto, using(crate::proofs::ReadBack::agent_back))]
    fn read_at(row: &Row, at: usize) -> Option<AgentCode> {
        agent_at(row, at)
    }
}

impl Column for AirlineCode {
    ghost cell = { airline_text };

    ghost is_formed = { λ code. code < 10 ^ 3 };

    fn read_at(row: &Row, at: usize) -> Option<AirlineCode> {
        airline_at(row, at)
    }
}

impl Filled for AirlineCode {
    fn filled() {}
}

impl Column for PeriodCode {
    ghost cell = { period_text };

    ghost is_formed = { λ code. code < 10 ^ 5 };

    fn read_at(row: &Row, at: usize) -> Option<PeriodCode> {
        period_at(row, at)
    }
}

impl Filled for PeriodCode {
    fn filled() {}
}

impl Column for DocNumber {
    ghost cell = { number_text };

    ghost is_formed = { λ number. number < 10 ^ 10 };

    fn read_at(row: &Row, at: usize) -> Option<DocNumber> {
        number_at(row, at)
    }
}

// ---- numbers

impl Column for i64 {
    ghost cell = { Int };

    fn read_at(row: &Row, at: usize) -> Option<i64> {
        int_at(row, at)
    }
}

impl Column for bool {
    ghost cell = { flag };

    fn read_at(row: &Row, at: usize) -> Option<bool> {
        match int_at(row, at)? {
            0 => Some(false),
            1 => Some(true),
            _ => None,
        }
    }
}

impl Column for u8 {
    ghost cell = { count };

    ghost is_formed = { λ n. n < 2 ^ 8 };

    fn read_at(row: &Row, at: usize) -> Option<u8> {
        Some(below_at(row, at, 1 << 8)? as u8)
    }
}

impl Column for u16 {
    ghost cell = { count };

    ghost is_formed = { λ n. n < 2 ^ 16 };

    fn read_at(row: &Row, at: usize) -> Option<u16> {
        Some(below_at(row, at, 1 << 16)? as u16)
    }
}

impl Filled for u16 {
    fn filled() {}
}

impl Column for u32 {
    ghost cell = { count };

    ghost is_formed = { λ n. n < 2 ^ 32 };

    fn read_at(row: &Row, at: usize) -> Option<u32> {
        Some(below_at(row, at, 1 << 32)? as u32)
    }
}

impl Column for usize {
    ghost cell = { count };

    fn read_at(row: &Row, at: usize) -> Option<usize> {
        let number = int_at(row, at)?;
        if number < 0 {
            return None;
        }
        Some(number as usize)
    }
}

impl Filled for usize {
    fn filled() {}
}

impl Column for Day {
    ghost cell = { λ day. Int (day_number day) };

    ghost is_formed = { λ day. IsTrue (is_day day) };

    #[tactic(auto, using(crate::proofs::Days::read_back))]
    fn read_at(row: &Row, at: usize) -> Option<Day> {
        day_at(row, at)
    }
}

impl Column for Amount {
    ghost cell = { Int };

    ghost is_formed = { IsStoredAmount };

    #[tactic(auto, using(crate::proofs::ReadBack::amount_back))]
    fn read_at(row: &Row, at: usize) -> Option<Amount> {
        amount_at(row, at)
    }
}

impl Filled for Amount {
    fn filled() {}
}

// ---- texts

impl<const N: usize> Column for [u8; N] {
    ghost cell = { Text };

    ghost is_formed = { λ text. length text ≡ N };

    fn read_at(row: &Row, at: usize) -> Option<[u8; N]> {
        match row.get_ref(at) {
            Ok(ValueRef::Text(text)) => <[u8; N]>::try_from(text).ok(),
            _ => None,
        }
    }
}

impl<const N: usize> Filled for [u8; N] {
    fn filled() {}
}

impl Column for Token {
    ghost cell = { Text };

    ghost is_formed = { λ token. is_token token ≡ true };

    fn read_at(row: &Row, at: usize) -> Option<Token> {
        match row.get_ref(at) {
            Ok(ValueRef::Text(text)) => Token::read(text),
            _ => None,
        }
    }
}

impl Filled for Token {
    fn filled() {}
}

impl Column for Currency {
    ghost cell = { Text };

    ghost is_formed = { λ letters. currency_reading letters ≡ Some letters };

    fn read_at(row: &Row, at: usize) -> Option<Currency> {
        match row.get_ref(at) {
            Ok(ValueRef::Text(text)) => Currency::read(text),
            _ => None,
        }
    }
}

impl Column for Reason {
    ghost cell = { Text };

    ghost is_formed = { λ reason. is_reason reason ≡ true };

    fn read_at(row: &Row, at: usize) -> Option<Reason> {
        match row.get_ref(at) {
            Ok(ValueRef::Text(text)) => Reason::read(text),
            _ => None,
        }
    }
}

impl Column for TransactionCode {
    ghost cell = { λ code. Text (code_text code) };

    fn read_at(row: &Row, at: usize) -> Option<TransactionCode> {
        match row.get_ref(at) {
            Ok(ValueRef::Text(b"TKTT")) => Some(TransactionCode::Tktt),
            Ok(ValueRef::Text(b"RFND")) => Some(TransactionCode::Rfnd),
            Ok(ValueRef::Text(b"CANX")) => Some(TransactionCode::Canx),
            _ => None,
        }
    }
}

#[tactic(auto, using(crate::proofs::Words::no_kind))]
fn kind_at(row: &Row, at: usize) -> Option<MemoKind>
    ensures { result ≡ kind_in (column row.now at) }
{
    match row.get_ref(at) {
        Ok(ValueRef::Text(text)) => match str::from_utf8(text) {
            Ok(text) => MemoKind::read(text),
            Err(_) => None,
        },
        _ => None,
    }
}

impl Column for MemoKind {
    ghost cell = { λ kind. Text (kind_text kind) };

    #[tactic(auto, using(crate::proofs::Words::kind_read, crate::proofs::Words::kind_back))]
    fn read_at(row: &Row, at: usize) -> Option<MemoKind> {
        kind_at(row, at)
    }
}

#[tactic(auto, using(crate::proofs::Words::no_state))]
fn state_at(row: &Row, at: usize) -> Option<MemoState>
    ensures { result ≡ state_in (column row.now at) }
{
    match row.get_ref(at) {
        Ok(ValueRef::Text(text)) => match str::from_utf8(text) {
            Ok(text) => MemoState::read(text),
            Err(_) => None,
        },
        _ => None,
    }
}

impl Column for MemoState {
    ghost cell = { λ state. Text (state_text state) };

    #[tactic(auto, using(crate::proofs::Words::state_read, crate::proofs::Words::state_back))]
    fn read_at(row: &Row, at: usize) -> Option<MemoState> {
        state_at(row, at)
    }
}

impl Column for [Option<Tax>; 6] {
    ghost cell = { taxes_text };

    ghost is_formed = { λ taxes. (length taxes ≡ 6) × InEach IsStoredTax taxes × (are_taxes 0 taxes ≡ true) };

    fn read_at(row: &Row, at: usize) -> Option<[Option<Tax>; 6]> {
        match row.get_ref(at) {
            Ok(ValueRef::Text(text)) => written_taxes(text),
            _ => None,
        }
    }
}

impl Filled for [Option<Tax>; 6] {
    fn filled() {}
}
