//! Whether a request changed anything or repeated an earlier one.

ghost use Rattle.std.specs.Prelude.{◌≡◌};
ghost use Rattle.bsp_fields.specs.Changes.{change_of};

/// What an accepted request did.
#[derive(Clone, Copy, PartialEq, Eq, Drop)]
pub enum Change {
    /// The request was carried out.
    Done,
    /// What was asked for was so already, and nothing changed.
    Held,
}

impl Change {
    /// `Held` if and only if what was asked for was so already.
    pub fn of(held: bool) -> Change
        ensures { result ≡ change_of held }
    {
        if held { Change::Held } else { Change::Done }
    }
}
