//! What is said of a code.

/// A row of the table: the code, the status, the meaning, the remedy and the causes of an [`Entry`]. A clause can name
/// a constant that has tuples, and none that has structs with references.
pub(crate) type Row = (
    &'static str,
    &'static str,
    &'static str,
    &'static str,
    &'static [&'static str],
);

/// What is said of a code. In its texts `docs/X.md` names a page, and words in `` ` `` are written as they are.
#[derive(Clone, Copy)]
pub struct Entry {
    /// The code.
    pub code: &'static str,
    /// The status of a reply that has it; empty where no reply has.
    pub status: &'static str,
    /// What it means, and when it comes.
    pub meaning: &'static str,
    /// What to do.
    pub remedy: &'static str,
    /// Its causes one by one, where it has many.
    pub causes: &'static [&'static str],
}
