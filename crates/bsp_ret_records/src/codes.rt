//! The profiles of files, and the codes of transactions and of forms of payment.

ghost use Rattle.std.specs.Prelude.{◌≡◌};
ghost use Rattle.bsp_ret_records.specs.Texts.{code_text};

/// A transaction code of record 2.
#[derive(Clone, Copy, PartialEq, Eq)]
pub enum TransactionCode {
    /// A sale.
    Tktt,
    /// A refund.
    Rfnd,
    /// A cancelled document.
    Canx,
}

/// A profile of RET files, columns 28 to 30 of the header.
#[derive(Clone, Copy, PartialEq, Eq)]
pub enum Profile {
    /// 001: an exchange has one related document.
    P001,
    /// 002: an exchange has one related document or two.
    P002,
}

/// A form of payment of record 8.
#[derive(Clone, Copy, PartialEq, Eq)]
pub enum FormOfPayment {
    /// CA.
    Cash,
    /// CC.
    Credit,
    /// EX, the value of a document taken in exchange.
    Exchange,
}

impl TransactionCode {
    /// The code as it is in columns 8 to 11 of record 2.
    pub fn text(self) -> [u8; 4]
        ensures { result ≡ code_text self }
    {
        match self {
            TransactionCode::Tktt => *b"TKTT",
            TransactionCode::Rfnd => *b"RFND",
            TransactionCode::Canx => *b"CANX",
        }
    }
}
