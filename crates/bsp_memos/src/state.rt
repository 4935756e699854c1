//! The states of a memo.

ghost use Rattle.std.specs.Prelude.{◌≡◌, ◌||◌, not, Some};
ghost use Rattle.bsp_memos.specs.Texts.{state_text, state_reading};
ghost use Rattle.bsp_memos.specs.States.{is_disputed, is_withdrawn};

/// How far a memo has come between the agent and the airline.
#[derive(Clone, Copy, PartialEq, Eq)]
pub enum MemoState {
    /// Issued, and nothing done about it.
    Open,
    /// The agent agreed.
    Agreed,
    /// The agent disputes it.
    Disputed,
    /// The airline kept it after a dispute.
    Upheld,
    /// The airline lowered its amount after a dispute.
    Reduced,
    /// The airline took it back.
    Withdrawn,
}

impl MemoState {
    /// The word for the state: `open`, `agreed`, `disputed`, `upheld`, `reduced` or `withdrawn`.
    pub fn word(self) -> &'static str
        ensures text { result.now ≡ state_text self }
        ensures reads_back { state_reading result.now ≡ Some self }
    {
        match self {
            MemoState::Open => "open",
            MemoState::Agreed => "agreed",
            MemoState::Disputed => "disputed",
            MemoState::Upheld => "upheld",
            MemoState::Reduced => "reduced",
            MemoState::Withdrawn => "withdrawn",
        }
    }

    /// The state with that word, and none of another text.
    pub fn read(text: &str) -> Option<MemoState>
        ensures { result ≡ state_reading text.now }
    {
        match text {
            "open" => Some(MemoState::Open),
            "agreed" => Some(MemoState::Agreed),
            "disputed" => Some(MemoState::Disputed),
            "upheld" => Some(MemoState::Upheld),
            "reduced" => Some(MemoState::Reduced),
            "withdrawn" => Some(MemoState::Withdrawn),
            _ => None,
        }
    }

    /// Whether a memo in this state may be billed at all.
    pub(crate) fn may_be_billed(self) -> bool
        ensures { result ≡ not (is_disputed self || is_withdrawn self) }
    {
        !matches!(self, MemoState::Disputed | MemoState::Withdrawn)
    }
}
