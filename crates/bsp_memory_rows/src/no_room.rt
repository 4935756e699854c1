//! The error of a refused allocation.

use std::alloc::AllocError;

/// An allocation was refused, or a count or a sum does not fit its type.
#[derive(Clone, Copy)]
pub struct NoRoom;

impl From<AllocError> for NoRoom {
    fn from(_: AllocError) -> NoRoom {
        NoRoom
    }
}
