//! The values of a group.

ghost use Rattle.std.specs.Prelude.{◌≡◌, ◌≤◌, ◌+◌, ℕ, List, [], length, MatchOption, slice_index_or};
ghost use Rattle.bsp_ret.specs.Content.{IsContent, HasContent};
ghost use Rattle.bsp_ret.specs.Groups.{records_of, AreFit};

use crate::file::RetFile;
use crate::records::Records;
use bsp_ret_records::{
    Sale, Transaction, amounts_values, card_values, payment_value, related_values, sale_passenger,
    sale_values,
};

/// The values of a group's records.
fn values_of(records: Records<'_>) -> Transaction
    requires { AreFit (records_of records) }
    ensures { IsContent (records_of records.entry) result }
{
    let Sale {
        code,
        agent,
        document,
        issued,
    } = sale_values(records.sale);
    Transaction {
        code,
        agent,
        document,
        issued,
        passenger: sale_passenger(records.sale),
        related: [
            records.related.map(|line| related_values(line)),
            records.second.map(|line| related_values(line)),
        ],
        amounts: records.amounts.map(|line| amounts_values(line)),
        cash: records.cash.map(|line| payment_value(line)),
        credit: records.credit.map(|line| card_values(line)),
        exchange: records.exchange.map(|line| payment_value(line)),
    }
}

/// The values of a transaction, counted from 0; none past the last. Its check digits are not
/// judged.
pub fn transaction(file: &RetFile, index: usize) -> Option<Transaction>
    ensures { MatchOption result (length file.now.groups ≤ index) (λ t. HasContent (index + 1) (slice_index_or file.now.groups index []) t) }
{
    match file.records(index) {
        Some(records) => Some(values_of(records)),
        None => None,
    }
}

/// A group has the values of one transaction only.
pub fn one_content()
    ensures { (n : ℕ) → (lines : List (List ℕ)) → (t other : Transaction) → HasContent n lines t → HasContent n lines other → t ≡ other }
{}
