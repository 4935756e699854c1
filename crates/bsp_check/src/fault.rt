//! Why a command wrote no whole report.

/// Why no whole report was written.
#[derive(Clone, Copy, PartialEq, Eq, Drop)]
pub enum Fault {
    /// A read failed.
    Read,
    /// The input is longer than its limit.
    TooLong,
    /// A write failed.
    Write,
    /// An allocation was refused.
    Memory,
}
