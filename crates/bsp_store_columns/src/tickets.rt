//! The tickets that relate to two documents, by their keys, and a document that is related.

ghost use Rattle.std.specs.Prelude.{◌≡◌, IfSome, Some};
ghost use Rattle.bsp_rows.specs.GroupValues.{second_of};
ghost use Rattle.bsp_rows.specs.ReportedDocument.{ReportedDocument as Reported};
ghost use Rattle.bsp_store_columns.specs.Tickets.{IsCheckedDocument, ticket_of};

use bsp_rows::{AgentCode, AirlineCode, DocNumber, ItemKey, ReportedDocument, Transaction};

/// The key of a ticket: its agent and its number.
#[derive(Clone, Copy, PartialEq, Eq, PartialOrd, Ord, Drop)]
pub struct TicketKey {
    /// The agent that it bears.
    pub agent: AgentCode,
    /// Its number.
    pub number: DocNumber,
}

impl TicketKey {
    /// The agent and the number of an item's key; none where it is that of a CANX.
    pub fn of(key: &ItemKey) -> Option<TicketKey>
        ensures { result ≡ ticket_of key.now }
    {
        if key.is_canx {
            return None;
        }
        Some(TicketKey {
            agent: key.agent,
            number: key.number,
        })
    }
}

/// The second related document of a transaction.
pub fn second_related(transaction: &Transaction) -> Option<ReportedDocument>
    ensures { result ≡ second_of transaction.now }
{
    transaction.related[1]
}

/// A document of an airline with these digits, and none where they are not those of a number.
pub(crate) fn document_of(airline: AirlineCode, digits: [u8; 10]) -> Option<ReportedDocument>
    ensures same { IfSome result (λ d. (d.airline ≡ airline) × (d.number ≡ digits)) }
    ensures whole { IfSome result IsCheckedDocument }
    ensures back { (d : Reported) → IsCheckedDocument d → d.airline ≡ airline → d.number ≡ digits → result ≡ Some d }
{
    let number = DocNumber::read_unchecked(&digits).ok()?;
    Some(ReportedDocument {
        airline,
        number: digits,
        check_digit: number.check_digit(),
    })
}
