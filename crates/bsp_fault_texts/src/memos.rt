//! The codes of memos.

use crate::entry::Row;

/// The codes `M01` to `M04`.
pub(crate) const M01_TO_M04: [Row; 4] = [
    (
        "M01",
        "404",
        "You have no memo of this airline and number. An agent sees those that were issued to it, an airline its own",
        "Read `../memos`, and take airline and number from it",
        &[],
    ),
    (
        "M02",
        "409",
        "The review is over, or the memo is billed: it can be neither disputed nor agreed to",
        "Ask the airline for a credit memo (ACMA)",
        &[],
    ),
    (
        "M03",
        "409",
        "The state of the memo does not allow this. An airline upholds and reduces a disputed memo alone. A billed memo cannot be withdrawn",
        "Read the state in `../memos`. docs/RULES.md has a drawing of what follows what",
        &[],
    ),
    (
        "M04",
        "409",
        "The amount is not from 1 to 99,999,999,999 minor units. Of a reduction: it is not below the amount of the memo",
        "Send the amount that is left, below the old one. To take all of it back withdraw the memo",
        &[],
    ),
];

/// The codes `M05` to `M08`.
pub(crate) const M05_TO_M08: [Row; 4] = [
    (
        "M05",
        "409",
        "The airline used this number for a memo with other content",
        "Take another number",
        &[],
    ),
    (
        "M06",
        "409",
        "It is a credit memo: nobody disputes, agrees to, upholds, reduces or withdraws one",
        "To take back a credit memo issue a debit memo",
        &[],
    ),
    (
        "M07",
        "409",
        "The airline has as many memos to this agent as the documents limit",
        "The office cannot change the limit (docs/OFFICE.md)",
        &[],
    ),
    (
        "M08",
        "409",
        "The agent is not registered, or its code has a wrong check digit",
        "Correct the agent's code. Else ask the office",
        &[],
    ),
];
