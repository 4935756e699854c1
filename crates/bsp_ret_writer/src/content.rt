//! When values make a group.

ghost use Rattle.std.specs.Prelude.{◌≡◌, ◌↔◌, ◌&&◌, IsTrue};
ghost use Rattle.bsp_ret_records.specs.Values.{is_before};
ghost use Rattle.bsp_ret_writer.specs.Stored.{InEach, IsStored, IsStoredTax};
ghost use Rattle.bsp_ret_writer.specs.GroupValues.{is_document, are_related, are_taxes, are_amounts, is_group_values, MakesGroup};

use bsp_fields::{all_digits, all_letters_or_digits, all_printable};
use bsp_ret_records::{Amounts, ReportedDocument, Tax, Transaction, TransactionCode};

/// The digits of a document are digits, and its check digit is one.
#[tactic(auto, using(bsp_fields::proofs::CharacterLemmas::digits_are), unfolding(crate::specs::GroupValues::is_document))]
fn fits_document(document: &ReportedDocument) -> bool
    ensures { result ≡ is_document document.now }
{
    all_digits(&document.number) && document.check_digit <= 9
}

/// Two documents fit, and the second comes behind the first.
#[tactic(auto, using(crate::proofs::DocumentLemmas::document_digits))]
fn fits_pair(first: &ReportedDocument, second: &ReportedDocument) -> bool
    ensures { result ≡ (is_document first.now && is_document second.now && is_before first.now second.now) }
{
    fits_document(first) && fits_document(second) && first.is_before(second)
}

/// There is nothing, a document, or in an exchange two, of which the second comes behind the first.
#[tactic(auto, unfolding(crate::specs::GroupValues::are_related))]
fn fits_related(exchange: bool, related: &[Option<ReportedDocument>; 2]) -> bool
    ensures { result ≡ are_related exchange related.now }
{
    let [first, second] = related;
    match first {
        None => second.is_none(),
        Some(document) => match second {
            None => fits_document(document),
            Some(other) => exchange && fits_pair(document, other),
        },
    }
}

/// Used places come first, with codes of letters and digits that rise by bytes.
fn fits_taxes(taxes: &[Option<Tax>; 6]) -> bool
    ensures { result ≡ are_taxes 0 taxes.now }
{
    let mut lowest = 0;
    let mut ended = false;
    for tax in taxes {
        match tax {
            None => ended = true,
            Some(tax) => {
                let code = 256 * tax.code[0] as u32 + tax.code[1] as u32;
                if ended || code <= lowest || !all_letters_or_digits(&tax.code) {
                    return false;
                }
                lowest = code;
            }
        }
    }
    true
}

#[tactic(auto, unfolding(crate::specs::GroupValues::are_amounts))]
fn fits_amounts(amounts: &Amounts) -> bool
    ensures { result ≡ are_amounts amounts.now }
{
    fits_taxes(&amounts.taxes) && amounts.rate <= 10_000
}

/// The test of the values.
#[tactic(auto, using(bsp_fields::proofs::CharacterLemmas::digits_are), unfolding(crate::specs::GroupValues::is_group_values, crate::specs::GroupValues::is_card, crate::specs::GroupValues::has_parts))]
fn fits_group(transaction: &Transaction) -> bool
    ensures { result ≡ is_group_values transaction.now }
{
    let amounts_fit = match &transaction.amounts {
        Some(amounts) => fits_amounts(amounts),
        None => true,
    };
    let card_fits = match &transaction.credit {
        Some(payment) => all_letters_or_digits(&payment.vendor),
        None => true,
    };
    let fields_fit = all_digits(&transaction.agent)
        && fits_document(&transaction.document)
        && all_printable(&transaction.passenger)
        && fits_related(transaction.exchange.is_some(), &transaction.related);
    let related = transaction.related[0].is_some();
    let amounts = transaction.amounts.is_some();
    let cash = transaction.cash.is_some();
    let credit = transaction.credit.is_some();
    let exchange = transaction.exchange.is_some();
    let parts_fit = match transaction.code {
        TransactionCode::Tktt => amounts && (cash || credit || exchange) && related == exchange,
        TransactionCode::Rfnd => related && amounts && (cash || credit) && !exchange,
        TransactionCode::Canx => !related && !amounts && !cash && !credit && !exchange,
    };
    fields_fit && amounts_fit && card_fits && parts_fit
}

/// What the types of six tax places say of each.
fn stored_taxes(taxes: [Option<Tax>; 6])
    ensures { InEach IsStoredTax taxes }
{
    let [_first, _second, _third, _fourth, _fifth, _sixth] = taxes;
}

/// What the types of a transaction's values say of them.
pub(crate) fn stored(transaction: Transaction)
    ensures { IsStored transaction }
{
    let [_first, _second] = transaction.related;
    if let Some(amounts) = transaction.amounts {
        stored_taxes(amounts.taxes);
    }
}

/// The values are those of a group, in profile 002 if not in 001. Digits are digits, the passenger's name is
/// printable, and tax codes and the vendor are letters and digits. Used tax places come first and
/// their codes rise by bytes. The rate is at most 10,000. A TKTT has amounts, a form of payment, and
/// one or two related documents if and only if it has an exchange; the second comes behind the first,
/// by its airline and its number. An RFND has a related document, amounts, cash or credit, and no
/// exchange. A CANX has nothing else.
pub fn is_group(transaction: &Transaction) -> bool
    ensures value { result ≡ is_group_values transaction.now }
    ensures makes { IsTrue result ↔ MakesGroup transaction.now }
{
    stored(*transaction);
    fits_group(transaction)
}
