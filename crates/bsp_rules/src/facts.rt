//! What of an agent's own rows bears on one transaction.

use crate::rows::Item;
use bsp_fields::PeriodCode;
use bsp_ret_records::ReportedDocument;

/// What of an agent's own rows bears on one transaction.
#[derive(Clone, Copy, PartialEq, Eq)]
pub struct Facts {
    /// Whether the agent is registered.
    pub registered: bool,
    /// The period of the accepted transaction with the same content.
    pub held: Option<PeriodCode>,
    /// Whether the number is in a range of the agent.
    pub in_range: bool,
    /// What is there under the transaction's own number.
    pub own: OwnNumber,
    /// What is there under each related document, in the places of the transaction.
    pub related: [Option<RelatedDocument>; 2],
    /// How many transactions of the airline have been accepted in the target period, cancelled ones
    /// and CANX too; 0 where there is no target.
    pub count: usize,
}

/// What is there under a transaction's own number.
#[derive(Clone, Copy, PartialEq, Eq)]
pub struct OwnNumber {
    /// Whether a transaction of any code has been accepted with it.
    pub is_used: bool,
    /// Whether a CANX has been accepted with it.
    pub is_cancelled: bool,
    /// Whether a transaction of another airline has been accepted with it.
    pub is_of_another_airline: bool,
    /// Whether a transaction has been accepted with it in a period that is closed.
    pub is_in_closed_period: bool,
    /// Whether a living TKTT or RFND relates to it.
    pub is_related_to: bool,
}

/// What is there under a related document.
#[derive(Clone, Copy, PartialEq, Eq)]
pub struct RelatedDocument {
    /// The document, as the transaction reports it.
    pub document: ReportedDocument,
    /// The accepted TKTT of its airline and number. It is cancelled where it does not live.
    pub ticket: Option<Item>,
    /// Whether a living TKTT or RFND relates to it.
    pub is_related_to: bool,
}
