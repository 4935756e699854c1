//! The names of records.

ghost use Rattle.std.specs.Prelude.{◌≡◌, Some};
ghost use Rattle.std.specs.Str.{bytes_eq};
ghost use Rattle.bsp_hot_records.specs.Records.{letters, name_digits, name_of};

/// The name of a record: three letters and two digits (DISH handbook).
#[derive(Clone, Copy)]
pub enum RecordName {
    /// The file's header: airline, period and currency.
    Bfh01,
    /// The period's header.
    Bch02,
    /// An office's header: its agent.
    Boh03,
    /// A transaction's header.
    Bkt06,
    /// A document: its number, code and agent.
    Bks24,
    /// The fare and the taxes of a document.
    Bks30,
    /// The commission of a document.
    Bks39,
    /// The tax on the commission of a document.
    Bks42,
    /// The document that is exchanged or refunded.
    Bks45,
    /// A form of payment.
    Bkp84,
    /// An office's totals of one code.
    Bot93,
    /// An office's totals.
    Bot94,
    /// The period's totals.
    Bct95,
    /// The file's totals.
    Bft99,
}

impl RecordName {
    /// The names, in the order of their digits.
    const ALL: [RecordName; 14] = [
        RecordName::Bfh01,
        RecordName::Bch02,
        RecordName::Boh03,
        RecordName::Bkt06,
        RecordName::Bks24,
        RecordName::Bks30,
        RecordName::Bks39,
        RecordName::Bks42,
        RecordName::Bks45,
        RecordName::Bkp84,
        RecordName::Bot93,
        RecordName::Bot94,
        RecordName::Bct95,
        RecordName::Bft99,
    ];

    /// The name that has these digits.
    pub(crate) fn of(digits: &[u8]) -> Option<RecordName>
        ensures { result ≡ name_of digits.now }
    {
        let names: &[RecordName] = &RecordName::ALL;
        for name in names {
            if digits == name.digits().as_slice() {
                return Some(*name);
            }
        }
        None
    }

    /// The two digits of the name, of columns 12 and 13.
    #[tactic(auto, unfolding(crate::specs::Records::name_of))]
    pub fn digits(self) -> [u8; 2]
        ensures text { result ≡ name_digits self }
        // The digits are of this name alone.
        ensures read { name_of (name_digits self) ≡ Some self }
    {
        match self {
            RecordName::Bfh01 => *b"01",
            RecordName::Bch02 => *b"02",
            RecordName::Boh03 => *b"03",
            RecordName::Bkt06 => *b"06",
            RecordName::Bks24 => *b"24",
            RecordName::Bks30 => *b"30",
            RecordName::Bks39 => *b"39",
            RecordName::Bks42 => *b"42",
            RecordName::Bks45 => *b"45",
            RecordName::Bkp84 => *b"84",
            RecordName::Bot93 => *b"93",
            RecordName::Bot94 => *b"94",
            RecordName::Bct95 => *b"95",
            RecordName::Bft99 => *b"99",
        }
    }

    /// The three letters of the name, of columns 1 to 3.
    pub fn letters(self) -> [u8; 3]
        ensures { result ≡ letters self }
    {
        match self {
            RecordName::Bfh01 => *b"BFH",
            RecordName::Bch02 => *b"BCH",
            RecordName::Boh03 => *b"BOH",
            RecordName::Bkt06 => *b"BKT",
            RecordName::Bkp84 => *b"BKP",
            RecordName::Bot93 | RecordName::Bot94 => *b"BOT",
            RecordName::Bct95 => *b"BCT",
            RecordName::Bft99 => *b"BFT",
            _ => *b"BKS",
        }
    }

    /// Whether the letters are those of the name.
    pub(crate) fn has_letters(self, text: &[u8]) -> bool
        ensures { result ≡ bytes_eq text.now (letters self) }
    {
        text == self.letters().as_slice()
    }
}
