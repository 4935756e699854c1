//! Whether an item and a transaction share a number.

ghost use Rattle.std.specs.Prelude.{◌≡◌};
ghost use Rattle.std.specs.List.{list_any};
ghost use Rattle.bsp_rules.specs.Selected.{in_place, is_among, numbers_of, shares};

use crate::rows::Item;
use crate::searching::names;
use bsp_ret_records::Transaction;

/// Whether the number is the transaction's, or that of one of its related documents.
fn bears(transaction: &Transaction, number: &[u8; 10]) -> bool
    ensures { result ≡ is_among number.now (numbers_of transaction.now) }
{
    transaction.document.number == *number || names(transaction, number)
}

/// Whether one of the related documents has a number that the other transaction bears.
fn names_one_of(transaction: &Transaction, other: &Transaction) -> bool
    ensures { result ≡ list_any (in_place (λ number. is_among number (numbers_of other.now))) transaction.now.related }
{
    transaction.related.iter().any(|place| match place {
        Some(document) => bears(other, &document.number),
        None => false,
    })
}

impl Item {
    /// Whether its number, or a related number, is the transaction's number or one of its related numbers.
    /// An item that shares none changes no fact on the transaction but the count.
    pub fn shares_number(&self, transaction: &Transaction) -> bool
        ensures { result ≡ shares (numbers_of transaction.now) self.now }
    {
        bears(transaction, &self.transaction.document.number)
            || names_one_of(&self.transaction, transaction)
    }
}
