//! The codes of documents.

ghost use Rattle.std.specs.Prelude.{◌≡◌, Some};
ghost use Rattle.bsp_hot_records.specs.Records.{code_of, code_text};
ghost use Rattle.bsp_hot_records.specs.Sums.{rank};

/// The code of a document. A HOT file has them in this order.
#[derive(Clone, Copy, PartialEq, Eq)]
pub enum DocumentCode {
    /// A sale.
    Tktt,
    /// A refund.
    Rfnd,
    /// A cancelled document.
    Canx,
    /// An agency debit memo.
    Adma,
    /// An agency credit memo.
    Acma,
}

impl DocumentCode {
    /// The codes in their order.
    pub const ALL: [DocumentCode; 5] = [
        DocumentCode::Tktt,
        DocumentCode::Rfnd,
        DocumentCode::Canx,
        DocumentCode::Adma,
        DocumentCode::Acma,
    ];

    /// The place of the code in their order, from 0.
    pub fn rank(self) -> u8
        ensures { result ≡ rank self }
    {
        match self {
            DocumentCode::Tktt => 0,
            DocumentCode::Rfnd => 1,
            DocumentCode::Canx => 2,
            DocumentCode::Adma => 3,
            DocumentCode::Acma => 4,
        }
    }

    /// The four letters of the code, as `TKTT`.
    #[tactic(auto, unfolding(crate::specs::Records::code_of))]
    pub fn text(self) -> [u8; 4]
        ensures text { result ≡ code_text self }
        // The letters are of this code alone.
        ensures read { code_of (code_text self) ≡ Some self }
    {
        match self {
            DocumentCode::Tktt => *b"TKTT",
            DocumentCode::Rfnd => *b"RFND",
            DocumentCode::Canx => *b"CANX",
            DocumentCode::Adma => *b"ADMA",
            DocumentCode::Acma => *b"ACMA",
        }
    }
}
