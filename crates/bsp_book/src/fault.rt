//! Why a book did not answer.

/// Why a call of a book gives no answer.
#[derive(Clone, Copy)]
pub enum BookFault {
    /// An allocation was refused, or a count or a sum of a tally does not fit its type. Nothing of the open
    /// transaction is left, and none is open. (B01.)
    NoRoom,
    /// The store failed for another cause. Each later call answers this, too. (B03.)
    Failed,
}
