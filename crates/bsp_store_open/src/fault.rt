//! Why a store is not opened as a book.

ghost use Rattle.std.specs.Prelude.{◌≡◌, false};
ghost use Rattle.bsp_store_open.specs.Faults.{fault_for, is_refusal};

use bsp_store_load::NoRoom;
use sqlite::{Error as StoreError, ErrorCode};
use std::alloc::AllocError;
use thiserror::Error;

/// Why a store is not opened as a book.
#[derive(Clone, Copy, Debug, PartialEq, Eq, Error)]
pub enum OpenFault {
    /// An allocation was refused, or a row is too big. (B01.)
    #[error("B01 out of memory")]
    NoRoom,
    /// The tables are not those of a book, or have rows that are not sound. (B02.)
    #[error("B02 no book, or a damaged one")]
    Damaged,
    /// The store is not opened, or failed, for another cause. (B03.)
    #[error("B03 {0}")]
    Failed(StoreError),
    /// The tables have a version that is none of 1 to 3. (B04.)
    #[error("B04 a book of another version")]
    OtherVersion,
}

/// What an error of `sqlite` means at an opening: B01 where it is `OutOfMemory` or `TooBig`, and else B03.
pub(crate) fn fault_of(error: StoreError) -> OpenFault
    ensures exact { result ≡ fault_for error }
    ensures refuses { is_refusal result ≡ false }
{
    match error {
        StoreError::SqliteFailure(ErrorCode::OutOfMemory | ErrorCode::TooBig) => OpenFault::NoRoom,
        _ => OpenFault::Failed(error),
    }
}

impl From<StoreError> for OpenFault {
    ghost use Rattle.bsp_store_open.specs.Faults.{IsFaultOf};

    ghost from_gives = { λ error fault. IsFaultOf error fault };

    fn from(error: StoreError) -> OpenFault {
        fault_of(error)
    }
}

impl From<NoRoom> for OpenFault {
    ghost use Rattle.std.specs.Prelude.{◌≡◌};
    ghost use Rattle.bsp_store_open.specs.declared.fault.OpenFault.TheVariants.{NoRoom};

    ghost from_gives = { λ _ fault. fault ≡ NoRoom };

    fn from(_: NoRoom) -> OpenFault {
        OpenFault::NoRoom
    }
}

impl From<AllocError> for OpenFault {
    ghost use Rattle.std.specs.Prelude.{◌≡◌};
    ghost use Rattle.bsp_store_open.specs.declared.fault.OpenFault.TheVariants.{NoRoom};

    ghost from_gives = { λ _ fault. fault ≡ NoRoom };

    fn from(_: AllocError) -> OpenFault {
        OpenFault::NoRoom
    }
}
