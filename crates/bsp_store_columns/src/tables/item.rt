//! The table `item`: the items that agents reported, without their tax and their second related document.

ghost use Rattle.std.specs.Prelude.{[], ◌<◌, ◌≡◌, ◌∷◌, ◌^◌, IfSome, IsTrue, length, None, Option, option_map, Some, true};
ghost use Rattle.sqlite.specs.Values.{or_null};
ghost use Rattle.sqlite_value.specs.declared.value.Value.TheVariants.{Int, Text};
ghost use Rattle.bsp_rows.specs.Amounts.{Amounts as Priced};
ghost use Rattle.bsp_rows.specs.CardPayment.{CardPayment as Card};
ghost use Rattle.bsp_rows.specs.CivilDay.{is_day};
ghost use Rattle.bsp_rows.specs.Codes.{check_digit_of};
ghost use Rattle.bsp_rows.specs.Days.{day_number};
ghost use Rattle.bsp_rows.specs.Decimal.{fixed_digits};
ghost use Rattle.bsp_rows.specs.GroupValues.{are_taxes, related_of};
ghost use Rattle.bsp_rows.specs.ReportedDocument.{ReportedDocument as Reported};
ghost use Rattle.bsp_rows.specs.RetRecordsTexts.{code_text};
ghost use Rattle.bsp_rows.specs.Stored.{IsStoredAmount, IsStoredAmounts, IsStoredCard, IsStoredDocument};
ghost use Rattle.bsp_store_columns.specs.Cells.{cell};
ghost use Rattle.bsp_store_columns.specs.Tickets.{IsCheckedDocument};
ghost use Rattle.bsp_store_columns.specs.Values.{agent_text, airline_text, count, flag, IsAgent, number_text, period_text, taxes_text};

use crate::cells::Cell;
use crate::column::End;
use crate::entry::{Entry, ReadEntry};
use crate::tax_places::places_of;
use crate::tickets::document_of;
use crate::{ItemTax, agent_digits, airline_digits, number_digits, period_digits};
use bsp_rows::{
    AgentCode, AirlineCode, Amount, Amounts, CardPayment, Day, DocNumber, Item, ItemKey,
    PeriodCode, ReportedDocument, Tax, Transaction, TransactionCode,
};

/// The description of the table.
#[macro_export]
macro_rules! item_table {
    ($rule:ident $($more:tt)*) => {
        $crate::of_table! { $rule $($more)* "item" 14
            (1 "agent" [TEXT NOT NULL REFERENCES "agent"], 2 "number" [TEXT NOT NULL], 3 "canx" [INTEGER NOT NULL])
            (4 "airline" [TEXT NOT NULL], 5 "code" [TEXT NOT NULL], 6 "issued" [INTEGER NOT NULL],
                7 "period" [TEXT NOT NULL REFERENCES "period"], 8 "alive" [INTEGER NOT NULL], 9 "name" [TEXT NOT NULL],
                10 "fare" [INTEGER], 11 "taxes" [TEXT], 12 "rate" [INTEGER], 13 "commission" [INTEGER],
                14 "rel_airline" [TEXT], 15 "rel_number" [TEXT], 16 "ca" [INTEGER], 17 "cc" [INTEGER],
                18 "ex" [INTEGER], 19 "vendor" [TEXT]) }
    };
}

// ---- what may be NULL

fn first_related(transaction: &Transaction) -> Option<ReportedDocument>
    ensures { result ≡ related_of transaction.now }
{
    transaction.related[0]
}

fn fare_cell(amounts: &Option<Amounts>) -> Cell
    ensures { cell result ≡ or_null Int (option_map (λ a. a.fare) amounts.now) }
{
    match amounts {
        Some(amounts) => Cell::Int(amounts.fare.get()),
        None => Cell::Null,
    }
}

#[tactic(auto, using(crate::proofs::Words::flat_concat))]
fn taxes_cell(amounts: &Option<Amounts>) -> Cell
    ensures { cell result ≡ or_null taxes_text (option_map (λ a. a.taxes) amounts.now) }
{
    match amounts {
        Some(amounts) => Cell::Taxes(places_of(&amounts.taxes)),
        None => Cell::Null,
    }
}

fn rate_cell(amounts: &Option<Amounts>) -> Cell
    ensures { cell result ≡ or_null count (option_map (λ a. a.rate) amounts.now) }
{
    match amounts {
        Some(amounts) => Cell::Int(amounts.rate as i64),
        None => Cell::Null,
    }
}

fn commission_cell(amounts: &Option<Amounts>) -> Cell
    ensures { cell result ≡ or_null Int (option_map (λ a. a.commission) amounts.now) }
{
    match amounts {
        Some(amounts) => Cell::Int(amounts.commission.get()),
        None => Cell::Null,
    }
}

fn airline_cell(related: &Option<ReportedDocument>) -> Cell
    ensures { cell result ≡ or_null airline_text (option_map (λ d. d.airline) related.now) }
{
    match related {
        Some(document) => Cell::Three(airline_digits(document.airline)),
        None => Cell::Null,
    }
}

fn number_cell(related: &Option<ReportedDocument>) -> Cell
    ensures { cell result ≡ or_null Text (option_map (λ d. d.number) related.now) }
{
    match related {
        Some(document) => Cell::Ten(document.number),
        None => Cell::Null,
    }
}

fn amount_cell(amount: Option<Amount>) -> Cell
    ensures { cell result ≡ or_null Int amount }
{
    match amount {
        Some(amount) => Cell::Int(amount.get()),
        None => Cell::Null,
    }
}

fn credit_cell(credit: &Option<CardPayment>) -> Cell
    ensures { cell result ≡ or_null Int (option_map (λ p. p.amount) credit.now) }
{
    match credit {
        Some(payment) => Cell::Int(payment.amount.get()),
        None => Cell::Null,
    }
}

fn vendor_cell(credit: &Option<CardPayment>) -> Cell
    ensures { cell result ≡ or_null Text (option_map (λ p. p.vendor) credit.now) }
{
    match credit {
        Some(payment) => Cell::Two(payment.vendor),
        None => Cell::Null,
    }
}

// ---- the row

impl Entry for (ItemKey, Item) {
    type Cells = [Cell; 19];

    ghost row = { λ e. let t = e.1.transaction in
        agent_text e.0.agent ∷ number_text e.0.number ∷ flag e.0.is_canx
        ∷ airline_text t.document.airline ∷ Text (code_text t.code) ∷ Int (day_number t.issued) ∷ period_text e.1.period ∷ flag e.1.lives
        ∷ Text t.passenger ∷ or_null Int (option_map (λ a. a.fare) t.amounts) ∷ or_null taxes_text (option_map (λ a. a.taxes) t.amounts)
        ∷ or_null count (option_map (λ a. a.rate) t.amounts) ∷ or_null Int (option_map (λ a. a.commission) t.amounts)
        ∷ or_null airline_text (option_map (λ d. d.airline) (related_of t)) ∷ or_null Text (option_map (λ d. d.number) (related_of t))
        ∷ or_null Int t.cash ∷ or_null Int (option_map (λ p. p.amount) t.credit) ∷ or_null Int t.exchange
        ∷ or_null Text (option_map (λ p. p.vendor) t.credit) ∷ [] };

    fn cells(&self) -> [Cell; 19] {
        let (key, item) = self;
        let transaction = &item.transaction;
        let related = &first_related(transaction);
        [
            Cell::Eight(agent_digits(key.agent)),
            Cell::Ten(number_digits(key.number)),
            Cell::flag(key.is_canx),
            Cell::Three(airline_digits(transaction.document.airline)),
            Cell::Four(transaction.code.text()),
            Cell::Int(transaction.issued.number()),
            Cell::Five(period_digits(item.period)),
            Cell::flag(item.lives),
            Cell::Name(transaction.passenger),
            fare_cell(&transaction.amounts),
            taxes_cell(&transaction.amounts),
            rate_cell(&transaction.amounts),
            commission_cell(&transaction.amounts),
            airline_cell(related),
            number_cell(related),
            amount_cell(transaction.cash),
            credit_cell(&transaction.credit),
            amount_cell(transaction.exchange),
            vendor_cell(&transaction.credit),
        ]
    }
}

// ---- what is read back

/// What a row of the table has of an item: all but its tax and its second related document.
#[derive(Clone, Copy)]
pub struct BareItem {
    /// The key of the item.
    pub key: ItemKey,
    /// The airline of its document, whose number is that of the key.
    pub airline: AirlineCode,
    /// Its transaction code.
    pub code: TransactionCode,
    /// Its day of issue.
    pub issued: Day,
    /// The period that it was accepted in.
    pub period: PeriodCode,
    /// Whether it is billed.
    pub lives: bool,
    /// The passenger's name.
    pub passenger: [u8; 49],
    /// Its amounts.
    pub amounts: Option<Amounts>,
    /// Its first related document.
    pub related: Option<ReportedDocument>,
    /// What is paid in cash.
    pub cash: Option<Amount>,
    /// What is paid by card.
    pub credit: Option<CardPayment>,
    /// What is paid by exchange.
    pub exchange: Option<Amount>,
}

/// The amounts with these values, and none of a row that has some of them alone.
fn amounts_of(
    fare: Option<Amount>,
    taxes: Option<[Option<Tax>; 6]>,
    rate: Option<u16>,
    commission: Option<Amount>,
) -> Option<Option<Amounts>>
    ensures same { IfSome result (λ all. (option_map (λ a. a.fare) all ≡ fare) × (option_map (λ a. a.taxes) all ≡ taxes) × (option_map (λ a. a.rate) all ≡ rate) × (option_map (λ a. a.commission) all ≡ commission)) }
    ensures back { (all : Option Priced) → option_map (λ a. a.fare) all ≡ fare → option_map (λ a. a.taxes) all ≡ taxes → option_map (λ a. a.rate) all ≡ rate → option_map (λ a. a.commission) all ≡ commission → result ≡ Some all }
{
    match (fare, taxes, rate, commission) {
        (None, None, None, None) => Some(None),
        (Some(fare), Some(taxes), Some(rate), Some(commission)) => Some(Some(Amounts {
            fare,
            taxes,
            rate,
            commission,
        })),
        _ => None,
    }
}

/// The document with these values, and none of a row that has one of them alone.
fn document_in(
    airline: Option<AirlineCode>,
    digits: Option<[u8; 10]>,
) -> Option<Option<ReportedDocument>>
    ensures same { IfSome result (λ all. (option_map (λ d. d.airline) all ≡ airline) × (option_map (λ d. d.number) all ≡ digits)) }
    ensures whole { IfSome result (λ all. IfSome all IsCheckedDocument) }
    ensures back { (all : Option Reported) → IfSome all IsCheckedDocument → option_map (λ d. d.airline) all ≡ airline → option_map (λ d. d.number) all ≡ digits → result ≡ Some all }
{
    match (airline, digits) {
        (None, None) => Some(None),
        (Some(airline), Some(digits)) => Some(Some(document_of(airline, digits)?)),
        _ => None,
    }
}

/// The payment by card with these values, and none of a row that has one of them alone.
fn card_of(amount: Option<Amount>, vendor: Option<[u8; 2]>) -> Option<Option<CardPayment>>
    ensures same { IfSome result (λ all. (option_map (λ p. p.amount) all ≡ amount) × (option_map (λ p. p.vendor) all ≡ vendor)) }
    ensures back { (all : Option Card) → option_map (λ p. p.amount) all ≡ amount → option_map (λ p. p.vendor) all ≡ vendor → result ≡ Some all }
{
    match (amount, vendor) {
        (None, None) => Some(None),
        (Some(amount), Some(vendor)) => Some(Some(CardPayment { amount, vendor })),
        _ => None,
    }
}

/// The values of the columns from the payment by card on.
type FromCredit = (Option<Amount>, (Option<Amount>, (Option<[u8; 2]>, End)));

/// Those from the commission on.
type FromCommission = (
    Option<Amount>,
    Option<AirlineCode>,
    Option<[u8; 10]>,
    Option<Amount>,
    FromCredit,
);

/// Those from the passenger's name on.
type FromName = (
    [u8; 49],
    Option<Amount>,
    Option<[Option<Tax>; 6]>,
    Option<u16>,
    FromCommission,
);

impl ReadEntry for BareItem {
    type Values = (
        AgentCode,
        DocNumber,
        bool,
        AirlineCode,
        (TransactionCode, Day, PeriodCode, bool, FromName),
    );

    ghost columns = { λ b. (
      b.key.agent,
      b.key.number,
      b.key.is_canx,
      b.airline,
      (
        b.code,
        b.issued,
        b.period,
        b.lives,
        (
          b.passenger,
          option_map (λ a. a.fare) b.amounts,
          option_map (λ a. a.taxes) b.amounts,
          option_map (λ a. a.rate) b.amounts,
          (
            option_map (λ a. a.commission) b.amounts,
            option_map (λ d. d.airline) b.related,
            option_map (λ d. d.number) b.related,
            b.cash,
            (option_map (λ p. p.amount) b.credit, (b.exchange, (option_map (λ p. p.vendor) b.credit, record {}))),
          ),
        ),
      ),
    ) };

    ghost is_formed = { λ b. IsAgent b.key.agent × (b.key.number < 10 ^ 10) × (b.airline < 10 ^ 3) × IsTrue (is_day b.issued) × (b.period < 10 ^ 5)
        × (length b.passenger ≡ 49) × IfSome b.amounts (λ a. IsStoredAmounts a × (are_taxes 0 a.taxes ≡ true) × (a.rate < 2 ^ 16))
        × IfSome b.related IsStoredDocument × IfSome b.cash IsStoredAmount × IfSome b.credit IsStoredCard × IfSome b.exchange IsStoredAmount };

    ghost is_whole = { λ b. IfSome b.related IsCheckedDocument };

    fn form() {}

    fn of(values: Self::Values) -> Option<Self> {
        let (agent, number, is_canx, airline, rest) = values;
        let (code, issued, period, lives, rest) = rest;
        let (passenger, fare, taxes, rate, rest) = rest;
        let (commission, related_airline, related_number, cash, rest) = rest;
        let (card_amount, (exchange, (vendor, End))) = rest;
        let key = ItemKey {
            agent,
            number,
            is_canx,
        };
        Some(BareItem {
            key,
            airline,
            code,
            issued,
            period,
            lives,
            passenger,
            amounts: amounts_of(fare, taxes, rate, commission)?,
            related: document_in(related_airline, related_number)?,
            cash,
            credit: card_of(card_amount, vendor)?,
            exchange,
        })
    }
}

/// What is a whole item with its tax and its second related document.
pub trait Completed {
    ghost use Rattle.std.specs.Prelude.{◌≡◌, Option};
    ghost use Rattle.bsp_rows.specs.Item.{Item as Whole};
    ghost use Rattle.bsp_rows.specs.ReportedDocument.{ReportedDocument as Reported};
    ghost use Rattle.bsp_rows.specs.declared.keys.ItemKey.{ItemKey as Key};
    ghost use Rattle.bsp_store_columns.specs.declared.taxes.ItemTax.{ItemTax as TaxOf};

    // the item
    ghost item_of: { Self → TaxOf → Option Reported → Whole };

    // an item under its key without what is kept of it elsewhere
    ghost bare: { Key × Whole → Self };

    /// The item with this tax and this second related document.
    fn item(&self, tax: ItemTax, second: Option<ReportedDocument>) -> Item
        ensures { result ≡ item_of self.now tax second };
}

/// A document of an airline, whose check digit is that of its number.
fn numbered(airline: AirlineCode, number: DocNumber) -> ReportedDocument
    ensures { result ≡ record { airline = airline; number = fixed_digits 10 number; check_digit = check_digit_of number } }
{
    ReportedDocument {
        airline,
        number: number.digits(),
        check_digit: number.check_digit(),
    }
}

impl Completed for BareItem {
    ghost item_of = { λ b tax second. record {
      agent = b.key.agent;
      period = b.period;
      transaction = record {
        code = b.code;
        agent = fixed_digits 8 b.key.agent;
        document = record { airline = b.airline; number = fixed_digits 10 b.key.number; check_digit = check_digit_of b.key.number };
        issued = b.issued;
        passenger = b.passenger;
        related = b.related ∷ second ∷ [];
        amounts = b.amounts;
        cash = b.cash;
        credit = b.credit;
        exchange = b.exchange;
      };
      lives = b.lives;
      tax = tax.tax;
      hundredths = tax.hundredths;
    } };

    ghost bare = { λ e. let t = e.1.transaction in record {
      key = e.0;
      airline = t.document.airline;
      code = t.code;
      issued = t.issued;
      period = e.1.period;
      lives = e.1.lives;
      passenger = t.passenger;
      amounts = t.amounts;
      related = related_of t;
      cash = t.cash;
      credit = t.credit;
      exchange = t.exchange;
    } };

    fn item(&self, tax: ItemTax, second: Option<ReportedDocument>) -> Item {
        let transaction = Transaction {
            code: self.code,
            agent: self.key.agent.digits(),
            document: numbered(self.airline, self.key.number),
            issued: self.issued,
            passenger: self.passenger,
            related: [self.related, second],
            amounts: self.amounts,
            cash: self.cash,
            credit: self.credit,
            exchange: self.exchange,
        };
        Item {
            agent: self.key.agent,
            period: self.period,
            transaction,
            lives: self.lives,
            tax: tax.tax,
            hundredths: tax.hundredths,
        }
    }
}
