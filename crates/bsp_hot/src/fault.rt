//! Why no HOT file is written, H01 to H03.

ghost use Rattle.std.specs.Prelude.{◌≡◌};
ghost use Rattle.bsp_hot.specs.Faults.{code_text};

use std::alloc::AllocError;
use thiserror::Error;

/// Why there is no HOT file over rows.
#[derive(Clone, Copy, Debug, PartialEq, Eq, Error)]
pub enum HotFault {
    /// A count or a total does not fit its place.
    #[error("H01: a count or a total does not fit its place")]
    TooWide,
    /// The period is not published, or not closed.
    #[error("H02: the period is unknown or not closed")]
    NotClosed,
    /// There was no memory.
    #[error("H03: no memory")]
    NoMemory,
}

impl HotFault {
    /// The code of the fault, `H01` to `H03`.
    pub fn code(self) -> &'static str
        ensures { result.now ≡ code_text self }
    {
        match self {
            HotFault::TooWide => "H01",
            HotFault::NotClosed => "H02",
            HotFault::NoMemory => "H03",
        }
    }
}

impl From<AllocError> for HotFault {
    ghost use Rattle.bsp_hot.specs.declared.fault.HotFault.TheVariants.{NoMemory};

    ghost from_gives = { λ _ fault. fault ≡ NoMemory };

    fn from(_: AllocError) -> HotFault {
        HotFault::NoMemory
    }
}
