//! The values of a row, kept until they are bound to a statement.

ghost use Rattle.std.specs.Prelude.{◌≡◌, ◌≤◌, ◌-◌, drop, length, replicate, take};
ghost use Rattle.sqlite.specs.Values.{bound, bound_value};
ghost use Rattle.sqlite_value.specs.Value.{owned};
ghost use Rattle.bsp_store_columns.specs.Cells.{cell, widest, written};
ghost use Rattle.bsp_store_columns.specs.Values.{flag};

use bsp_rows::{MemoKind, MemoState, Reason, Token};
use sqlite_value::value::ValueRef;

/// What is written into a column. Digits of a code, and the text of a token or of a memo, are kept here.
#[derive(Clone, Copy)]
pub enum Cell {
    /// NULL.
    Null,
    /// An integer.
    Int(i64),
    /// Two characters.
    Two([u8; 2]),
    /// Three characters.
    Three([u8; 3]),
    /// Four characters.
    Four([u8; 4]),
    /// Five characters.
    Five([u8; 5]),
    /// Eight characters.
    Eight([u8; 8]),
    /// Ten characters.
    Ten([u8; 10]),
    /// A passenger's name.
    Name([u8; 49]),
    /// Six places of taxes.
    Taxes([[u8; 13]; 6]),
    /// A token.
    Token(Token),
    /// The code of the kind of a memo.
    Kind(MemoKind),
    /// The reason of a memo.
    Reason(Reason),
    /// The word for the state of a memo.
    State(MemoState),
}

impl Cell {
    /// A flag as an integer.
    pub fn flag(holds: bool) -> Cell
        ensures { cell result ≡ flag holds }
    {
        Cell::Int(if holds { 1 } else { 0 })
    }

    /// The value that is bound.
    pub(crate) fn value(&self) -> ValueRef<'_>
        ensures { bound_value (owned result) ≡ cell self.now }
    {
        match self {
            Cell::Null => ValueRef::Null,
            Cell::Int(number) => ValueRef::Int(*number),
            Cell::Two(text) => ValueRef::Text(text),
            Cell::Three(digits) => ValueRef::Text(digits),
            Cell::Four(text) => ValueRef::Text(text),
            Cell::Five(digits) => ValueRef::Text(digits),
            Cell::Eight(digits) => ValueRef::Text(digits),
            Cell::Ten(digits) => ValueRef::Text(digits),
            Cell::Name(name) => ValueRef::Text(name),
            Cell::Taxes(places) => ValueRef::Text(places.as_flattened()),
            Cell::Token(token) => ValueRef::Text(token.as_bytes()),
            Cell::Kind(kind) => ValueRef::Text(kind.code().as_bytes()),
            Cell::Reason(reason) => ValueRef::Text(reason.as_str().as_bytes()),
            Cell::State(state) => ValueRef::Text(state.word().as_bytes()),
        }
    }
}

/// How many columns a table has at the most.
const WIDEST: usize = 32;

/// The values of as many cells as a table has columns, one for each, and NULL after them.
pub fn values_of(cells: &[Cell]) -> [ValueRef<'_>; WIDEST]
    requires { length cells.now ≤ widest }
    ensures values { bound (take (length cells.now) result) ≡ written cells.now }
    ensures rest { drop (length cells.now) result ≡ replicate (widest - length cells.now) ValueRef.Null }
{
    let mut values = [ValueRef::Null; WIDEST];
    for at in 0..cells.len() {
        values[at] = cells[at].value();
    }
    values
}
