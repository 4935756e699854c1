//! Sums of the amounts of a transaction, and its net.

ghost use Rattle.std.specs.Prelude.{◌≡◌, ◌≤◌, ◌-ℤ◌, map, unsigned_abs};
ghost use Rattle.bsp_rules.specs.Amounts.{amount_or_zero, card_amount, commission_amount, gross, net_of, paid, sum_of, tax_amount};

use crate::rows::Item;
use bsp_fields::Amount;
use bsp_ret_records::{Amounts, CardPayment, Tax, Transaction, TransactionCode};

/// An amount in minor units, and 0 where there is none.
pub fn amount_or_zero(amount: Option<Amount>) -> i64
    ensures value { result ≡ amount_or_zero amount }
    ensures bound { unsigned_abs result ≤ 99_999_999_999 }
{
    match amount {
        Some(amount) => amount.get(),
        None => 0,
    }
}

/// What was paid by card in minor units, and 0 where nothing was.
pub fn card_amount(payment: Option<CardPayment>) -> i64
    ensures value { result ≡ card_amount payment }
    ensures bound { unsigned_abs result ≤ 99_999_999_999 }
{
    match payment {
        Some(payment) => payment.amount.get(),
        None => 0,
    }
}

/// The commission in minor units, and 0 where there are no amounts.
pub fn commission_amount(amounts: &Option<Amounts>) -> i64
    ensures value { result ≡ commission_amount amounts.now }
    ensures bound { unsigned_abs result ≤ 99_999_999_999 }
{
    match amounts {
        Some(amounts) => amounts.commission.get(),
        None => 0,
    }
}

fn tax_amount(tax: &Option<Tax>) -> i64
    ensures value { result ≡ tax_amount tax.now }
    ensures bound { unsigned_abs result ≤ 99_999_999_999 }
{
    match tax {
        Some(tax) => tax.amount.get(),
        None => 0,
    }
}

fn tax_sum(taxes: &[Option<Tax>; 6]) -> i64
    ensures value { result ≡ sum_of (map tax_amount taxes.now) }
    ensures bound { unsigned_abs result ≤ 599_999_999_994 }
{
    let mut sum = 0;
    for tax in taxes {
        sum += tax_amount(tax);
    }
    sum
}

/// Fare and taxes.
pub(crate) fn gross(amounts: &Amounts) -> i64
    ensures value { result ≡ gross amounts.now }
    ensures bound { unsigned_abs result ≤ 699_999_999_993 }
{
    amounts.fare.get() + tax_sum(&amounts.taxes)
}

/// The sum of the forms of payment.
pub(crate) fn paid(transaction: &Transaction) -> i64
    ensures { result ≡ paid transaction.now }
{
    amount_or_zero(transaction.cash)
        + card_amount(transaction.credit)
        + amount_or_zero(transaction.exchange)
}

/// Cash less commission.
fn untaxed(transaction: &Transaction) -> i64
    ensures value { result ≡ amount_or_zero transaction.now.cash -ℤ commission_amount transaction.now.amounts }
    ensures bound { unsigned_abs result ≤ 199_999_999_998 }
{
    amount_or_zero(transaction.cash) - commission_amount(&transaction.amounts)
}

/// What an agent owes for an item, in minor units: its cash less its commission less the tax on that
/// for a TKTT or an RFND, and nothing for a CANX.
pub fn net(item: &Item) -> i64
    ensures { result ≡ net_of item.now }
{
    let transaction = &item.transaction;
    match transaction.code {
        TransactionCode::Tktt | TransactionCode::Rfnd => untaxed(transaction) - item.tax.get(),
        TransactionCode::Canx => 0,
    }
}
