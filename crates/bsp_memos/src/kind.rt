//! The kinds of memos: ADMA and ACMA.

ghost use Rattle.std.specs.Prelude.{◌≡◌, Some};
ghost use Rattle.bsp_memos.specs.Texts.{kind_text, kind_reading};

/// Who owes the amount of a memo.
#[derive(Clone, Copy, PartialEq, Eq)]
pub enum MemoKind {
    /// ADMA: the agent owes the airline.
    Debit,
    /// ACMA: the airline owes the agent.
    Credit,
}

impl MemoKind {
    /// The transaction code of the DISH handbook, `ADMA` or `ACMA`.
    pub fn code(self) -> &'static str
        ensures text { result.now ≡ kind_text self }
        ensures reads_back { kind_reading result.now ≡ Some self }
    {
        match self {
            MemoKind::Debit => "ADMA",
            MemoKind::Credit => "ACMA",
        }
    }

    /// The kind with that code, and none of another text.
    pub fn read(text: &str) -> Option<MemoKind>
        ensures { result ≡ kind_reading text.now }
    {
        match text {
            "ADMA" => Some(MemoKind::Debit),
            "ACMA" => Some(MemoKind::Credit),
            _ => None,
        }
    }
}
