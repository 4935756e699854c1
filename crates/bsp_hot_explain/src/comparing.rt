//! A record beside what the records before it give, column by column.

ghost use Rattle.std.specs.Prelude.{◌≡◌, ◌≤◌, ◌<◌, ◌^◌};
ghost use Rattle.bsp_hot_records.specs.Sums.{AreSmall};
ghost use Rattle.bsp_hot_check.specs.Standings.{IsSmall};
ghost use Rattle.bsp_hot_explain.specs.Comparisons.{airline_or, agent_or, code_or, comparisons, currency_or, first_differing, period_or, related_comparisons, totals_comparisons};

use crate::comparison::{Comparison, Value, first_differing};
use bsp_explain::Name;
use bsp_fields::{AirlineCode, PeriodCode};
use bsp_hot_check::Standing;
use bsp_hot_records::{
    AgentDigits, CodeTotals, Document, DocumentCode, FileTotals, Heading, OfficeHeader,
    OfficeTotals, Part, PartOf, PeriodTotals, Record, Sums, Totals, TransactionHeader,
};

/// A comparison by its columns, its name, what the record says, and what those before it give.
macro_rules! comparison {
    ($first:expr, $last:expr, $name:ident, $value:ident, $stated:expr, $given:expr) => {
        Comparison {
            first: $first,
            last: $last,
            name: Name::$name,
            stated: Value::$value($stated),
            given: Value::$value($given),
            items: None,
        }
    };
}

/// The airline of the file, or this one before BFH01.
fn airline_or(heading: Option<Heading>, airline: AirlineCode) -> AirlineCode
    ensures { result ≡ airline_or heading airline }
{
    match heading {
        Some(heading) => heading.airline,
        None => airline,
    }
}

/// The period of the file, or this one before BFH01.
fn period_or(heading: Option<Heading>, period: PeriodCode) -> PeriodCode
    ensures { result ≡ period_or heading period }
{
    match heading {
        Some(heading) => heading.period,
        None => period,
    }
}

/// The currency of the file, or this one before BFH01.
fn currency_or(heading: Option<Heading>, currency: [u8; 3]) -> [u8; 3]
    ensures { result ≡ currency_or heading currency }
{
    match heading {
        Some(heading) => heading.currency,
        None => currency,
    }
}

/// The agent of the office, or this one before the first.
fn agent_or(office: Option<AgentDigits>, agent: AgentDigits) -> AgentDigits
    ensures { result ≡ agent_or office agent }
{
    match office {
        Some(office) => office,
        None => agent,
    }
}

/// The code whose BOT93 comes next, or this one where none does.
fn code_or(next: Option<DocumentCode>, code: DocumentCode) -> DocumentCode
    ensures { result ≡ code_or next code }
{
    match next {
        Some(next) => next,
        None => code,
    }
}

/// An amount in the 15 columns from that one on, and what all items, or those of that code, add up to.
macro_rules! amount {
    ($items:expr, $first:expr, $name:ident, $stated:expr, $given:expr) => {
        Comparison {
            first: $first,
            last: $first + 14,
            name: Name::$name,
            stated: Value::Amount($stated),
            given: Value::Amount($given),
            items: $items,
        }
    };
}

/// The first total, from that column on, that differs from these sums of all items, or of those of that
/// code.
fn total_differing(
    items: Option<DocumentCode>,
    first: u8,
    totals: Totals,
    sums: Sums,
) -> Option<Comparison>
    requires to { first ≤ 54 }
    requires small { AreSmall (2 ^ 63) sums }
    ensures { result ≡ first_differing (totals_comparisons items first totals sums) }
{
    let stated = totals.sums;
    let net = sums.net();
    let documents = Comparison {
        first,
        last: first + 7,
        name: Name::Documents,
        stated: Value::Count(stated.documents),
        given: Value::Count(sums.documents),
        items,
    };
    first_differing(&[
        documents,
        amount!(items, first + 8, Cash, stated.cash, sums.cash),
        amount!(items, first + 23, Credit, stated.credit, sums.credit),
        amount!(
            items,
            first + 38,
            Commission,
            stated.commission,
            sums.commission
        ),
        amount!(items, first + 53, Net, totals.net, net),
        amount!(items, first + 68, CommissionTax, stated.tax, sums.tax),
    ])
}

/// The airline of a related document, where it is not the file's.
fn related_differing(heading: Option<Heading>, part: Part) -> Option<Comparison>
    ensures { result ≡ first_differing (related_comparisons heading part) }
{
    match part {
        Part::Related(other) => {
            let airline = airline_or(heading, other.airline);
            first_differing(&[comparison!(22, 24, Airline, Airline, other.airline, airline)])
        }
        _ => first_differing(&[]),
    }
}

/// Of BCH02.
fn period_differing(at: &Standing, period: PeriodCode) -> Option<Comparison>
    ensures { result ≡ first_differing (comparisons at.now (Record.PeriodHeader period)) }
{
    let due = period_or(at.heading, period);
    first_differing(&[comparison!(14, 18, Period, Period, period, due)])
}

/// Of BOH03.
fn office_differing(at: &Standing, office: OfficeHeader) -> Option<Comparison>
    ensures { result ≡ first_differing (comparisons at.now (Record.OfficeHeader office)) }
{
    let period = period_or(at.heading, office.period);
    let currency = currency_or(at.heading, office.currency);
    first_differing(&[
        comparison!(22, 26, Period, Period, office.period, period),
        comparison!(27, 29, Currency, Currency, office.currency, currency),
    ])
}

/// Of BKT06.
fn transaction_differing(at: &Standing, header: TransactionHeader) -> Option<Comparison>
    requires small { IsSmall at.now }
    requires room { at.now.records < 2 ^ 63 }
    ensures { result ≡ first_differing (comparisons at.now (Record.TransactionHeader header)) }
{
    let next = at.transactions + 1;
    let airline = airline_or(at.heading, header.airline);
    first_differing(&[
        comparison!(
            14,
            21,
            TransactionNumber,
            Transaction,
            header.transaction,
            next
        ),
        comparison!(22, 24, Airline, Airline, header.airline, airline),
    ])
}

/// Of BKS24.
fn document_differing(at: &Standing, document: Document) -> Option<Comparison>
    ensures { result ≡ first_differing (comparisons at.now (Record.Document document)) }
{
    let agent = agent_or(at.agent, document.agent);
    first_differing(&[
        comparison!(
            14,
            21,
            TransactionNumber,
            Transaction,
            document.transaction,
            at.transactions
        ),
        comparison!(43, 50, Agent, Agent, document.agent, agent),
    ])
}

/// Of a record after BKS24.
#[tactic(auto, using(crate::proofs::Differing::first_of_two))]
fn part_differing(at: &Standing, next: PartOf) -> Option<Comparison>
    ensures { result ≡ first_differing (comparisons at.now (Record.PartOf next)) }
{
    let part = next.part;
    let number = first_differing(&[comparison!(
        14,
        21,
        TransactionNumber,
        Transaction,
        next.transaction,
        at.transactions
    )]);
    let airline = related_differing(at.heading, part);
    number.or(airline)
}

/// Of BOT93.
#[tactic(auto, using(crate::proofs::Differing::first_of_two))]
fn code_totals_differing(at: &Standing, next: &CodeTotals) -> Option<Comparison>
    requires small { IsSmall at.now }
    requires room { at.now.records < 2 ^ 63 }
    ensures { result ≡ first_differing (comparisons at.now (Record.CodeTotals next.now)) }
{
    let agent = agent_or(at.agent, next.agent);
    let code = code_or(at.office.codes.next_code(at.place), next.code);
    let head = first_differing(&[
        comparison!(14, 21, Agent, Agent, next.agent, agent),
        comparison!(22, 25, DocumentCode, Code, next.code, code),
    ]);
    let total = total_differing(
        Some(next.code),
        26,
        next.totals,
        at.office.codes.of(next.code),
    );
    head.or(total)
}

/// Of BOT94.
#[tactic(auto, using(crate::proofs::Differing::first_of_two))]
fn office_totals_differing(at: &Standing, next: &OfficeTotals) -> Option<Comparison>
    requires small { IsSmall at.now }
    requires room { at.now.records < 2 ^ 63 }
    ensures { result ≡ first_differing (comparisons at.now (Record.OfficeTotals next.now)) }
{
    let agent = agent_or(at.agent, next.agent);
    let head = first_differing(&[comparison!(14, 21, Agent, Agent, next.agent, agent)]);
    let total = total_differing(None, 22, next.totals, at.office.all);
    head.or(total)
}

/// Of BCT95.
#[tactic(auto, using(crate::proofs::Differing::first_of_two))]
fn period_totals_differing(at: &Standing, next: &PeriodTotals) -> Option<Comparison>
    requires small { IsSmall at.now }
    requires room { at.now.records < 2 ^ 63 }
    ensures { result ≡ first_differing (comparisons at.now (Record.PeriodTotals next.now)) }
{
    let period = period_or(at.heading, next.period);
    let head = first_differing(&[
        comparison!(14, 18, Period, Period, next.period, period),
        comparison!(19, 26, Offices, Count, next.offices, at.offices),
    ]);
    let total = total_differing(None, 27, next.totals, at.file);
    head.or(total)
}

/// Of BFT99.
#[tactic(auto, using(crate::proofs::Differing::first_of_two))]
fn file_totals_differing(at: &Standing, next: &FileTotals) -> Option<Comparison>
    requires small { IsSmall at.now }
    requires room { at.now.records < 2 ^ 63 }
    ensures { result ≡ first_differing (comparisons at.now (Record.FileTotals next.now)) }
{
    let airline = airline_or(at.heading, next.airline);
    let head = first_differing(&[
        comparison!(14, 16, Airline, Airline, next.airline, airline),
        comparison!(17, 24, RecordCount, Count, next.records, at.records + 1),
    ]);
    let total = total_differing(None, 25, next.totals, at.file);
    head.or(total)
}

/// The first column of a record that differs from what the records before it give.
pub(crate) fn differing(at: &Standing, found: &Record) -> Option<Comparison>
    requires small { IsSmall at.now }
    requires room { at.now.records < 2 ^ 63 }
    ensures { result ≡ first_differing (comparisons at.now found.now) }
{
    match found {
        Record::FileHeader(_) => first_differing(&[]),
        Record::PeriodHeader(period) => period_differing(at, *period),
        Record::OfficeHeader(office) => office_differing(at, *office),
        Record::TransactionHeader(header) => transaction_differing(at, *header),
        Record::Document(document) => document_differing(at, *document),
        Record::PartOf(next) => part_differing(at, *next),
        Record::CodeTotals(next) => code_totals_differing(at, next),
        Record::OfficeTotals(next) => office_totals_differing(at, next),
        Record::PeriodTotals(next) => period_totals_differing(at, next),
        Record::FileTotals(next) => file_totals_differing(at, next),
    }
}
