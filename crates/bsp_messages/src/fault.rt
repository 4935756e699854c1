//! Why a body is refused.

use thiserror::Error;

/// Why a body was not read.
#[derive(Clone, Copy, Debug, PartialEq, Eq, Error)]
pub enum BodyFault {
    /// The bytes are no JSON object with exactly the keys of the body, each value in its form: N04.
    #[error("N04: the body is malformed")]
    Malformed,
    /// An allocation was refused.
    #[error("out of memory")]
    NoRoom,
}
