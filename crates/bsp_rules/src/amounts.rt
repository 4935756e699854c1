//! Whether the amounts of a transaction are right by themselves and by the published rate.

ghost use Rattle.std.specs.Prelude.{◌≡◌};
ghost use Rattle.std.specs.List.{list_all};
ghost use Rattle.bsp_ret_records.specs.Values.{none_or};
ghost use Rattle.bsp_rules.specs.Commission.{is_commission};
ghost use Rattle.bsp_rules.specs.Amounts.{has_published_commission, has_sign, has_wrong_amounts, have_sign, is_balanced};

use crate::rounding::rounded;
use crate::sums::{gross, paid};
use bsp_fields::Amount;
use bsp_ret_records::{Amounts, CardPayment, Tax, Transaction, TransactionCode};

fn has_sign(code: TransactionCode, amount: Amount) -> bool
    ensures { result ≡ has_sign code amount }
{
    match code {
        TransactionCode::Rfnd => amount.get() <= 0,
        TransactionCode::Tktt | TransactionCode::Canx => amount.get() >= 0,
    }
}

fn form_has_sign(code: TransactionCode, amount: Option<Amount>) -> bool
    ensures { result ≡ none_or (has_sign code) amount }
{
    match amount {
        Some(amount) => has_sign(code, amount),
        None => true,
    }
}

fn card_has_sign(code: TransactionCode, payment: Option<CardPayment>) -> bool
    ensures { result ≡ none_or (λ card. has_sign code card.amount) payment }
{
    match payment {
        Some(payment) => has_sign(code, payment.amount),
        None => true,
    }
}

fn taxes_have_sign(code: TransactionCode, taxes: &[Option<Tax>; 6]) -> bool
    ensures { result ≡ list_all (none_or (λ tax. has_sign code tax.amount)) taxes.now }
{
    taxes.iter().all(|tax| match tax {
        Some(tax) => has_sign(code, tax.amount),
        None => true,
    })
}

/// Each amount has the sign of the transaction's code.
#[tactic(auto, unfolding(crate::specs::Amounts::have_sign))]
fn have_sign(transaction: &Transaction, amounts: &Amounts) -> bool
    ensures { result ≡ have_sign transaction.now amounts.now }
{
    let code = transaction.code;
    has_sign(code, amounts.fare)
        && has_sign(code, amounts.commission)
        && taxes_have_sign(code, &amounts.taxes)
        && form_has_sign(code, transaction.cash)
        && card_has_sign(code, transaction.credit)
        && form_has_sign(code, transaction.exchange)
}

/// Fare and taxes are what is paid.
#[tactic(auto, unfolding(crate::specs::Amounts::is_balanced))]
fn is_balanced(transaction: &Transaction, amounts: &Amounts) -> bool
    ensures { result ≡ is_balanced transaction.now amounts.now }
{
    gross(amounts) == paid(transaction)
}

/// The claimed rate is at most the published one, and without an exchange the commission is the
/// claimed rate's on the fare.
#[tactic(auto, unfolding(crate::specs::Amounts::has_published_commission))]
fn has_published_commission(transaction: &Transaction, amounts: &Amounts, published: u16) -> bool
    ensures { result ≡ has_published_commission transaction.now amounts.now published }
{
    amounts.rate <= published
        && (transaction.exchange.is_some() || has_commission(amounts, amounts.fare.get()))
}

/// Whether the commission is the claimed rate's on a basis.
pub(crate) fn has_commission(amounts: &Amounts, basis: i64) -> bool
    ensures { result ≡ is_commission amounts.now.rate basis amounts.now.commission }
{
    amounts.commission.get() as i128 == rounded(amounts.rate, basis)
}

/// Whether amounts or commission are wrong by the transaction and the published rate alone.
#[tactic(auto, unfolding(crate::specs::Amounts::has_wrong_amounts))]
pub(crate) fn has_wrong_amounts(transaction: &Transaction, published: u16) -> bool
    ensures { result ≡ has_wrong_amounts transaction.now published }
{
    let Some(amounts) = &transaction.amounts else {
        return transaction.code != TransactionCode::Canx;
    };
    match transaction.code {
        TransactionCode::Tktt => {
            !(have_sign(transaction, amounts)
                && is_balanced(transaction, amounts)
                && has_published_commission(transaction, amounts, published))
        }
        TransactionCode::Rfnd => {
            !(have_sign(transaction, amounts) && is_balanced(transaction, amounts))
        }
        TransactionCode::Canx => false,
    }
}
