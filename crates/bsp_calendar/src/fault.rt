//! Why a plan is refused: P01 to P08.

ghost use Rattle.std.specs.Prelude.{◌≡◌};
ghost use Rattle.bsp_calendar.specs.Faults.{code_text};

use std::alloc::{AllocError, AllocFailed};
use std::error::Error;
use std::fmt;

/// Why a plan text or a request on the plan is refused, in the order in which faults are answered.
/// Where several apply, the first of this list is answered. Out of memory may be answered in place
/// of any other but a number out of its bounds.
#[derive(Clone, Copy, Debug, PartialEq, Eq)]
pub enum PlanFault {
    /// The bytes are no TOML text.
    NotToml,
    /// A key is missing, unknown or has a wrong value, or a rate's airline is not published.
    WrongKey,
    /// An entry differs from the published one of its key, or two entries of the text differ.
    Differs,
    /// A period leaves a gap, overlaps another, or its days are not in order.
    OutOfOrder,
    /// A new rate, or a new tax on commission, begins on a day that is not after the business day.
    LateRate,
    /// The business day would go backwards.
    DayBackwards,
    /// The period is not the earliest that is not closed.
    NotEarliest,
    /// The business day is not after the last day of the period.
    NotOver,
    /// There was no memory.
    NoMemory,
}

impl PlanFault {
    /// The code of the fault, `P01` to `P09`.
    pub fn code(self) -> &'static str
        ensures { result.now ≡ code_text self }
    {
        match self {
            PlanFault::NotToml => "P01",
            PlanFault::WrongKey => "P02",
            PlanFault::OutOfOrder => "P03",
            PlanFault::DayBackwards => "P04",
            PlanFault::LateRate => "P05",
            PlanFault::NotEarliest => "P06",
            PlanFault::NotOver => "P07",
            PlanFault::Differs => "P08",
            PlanFault::NoMemory => "P09",
        }
    }

    fn text(self) -> &'static str {
        match self {
            PlanFault::NotToml => "P01: the text is not TOML",
            PlanFault::WrongKey => "P02: a key is missing, unknown or wrong",
            PlanFault::Differs => "P08: an entry differs from what is published",
            PlanFault::OutOfOrder => "P03: the periods do not follow one another",
            PlanFault::LateRate => "P05: a new rate or tax does not begin after the business day",
            PlanFault::DayBackwards => "P04: the business day would go backwards",
            PlanFault::NotEarliest => "P06: the period is not the earliest unclosed one",
            PlanFault::NotOver => "P07: the period is not over",
            PlanFault::NoMemory => "P09: no memory",
        }
    }
}

impl fmt::Display for PlanFault {
    fn fmt<W: fmt::Write>(&self, f: &mut fmt::Formatter<W>) -> fmt::Result {
        f.write_str(self.text())
    }
}

impl Error for PlanFault {}

impl From<AllocError> for PlanFault {
    ghost use Rattle.std.specs.Prelude.{◌≡◌};
    ghost use Rattle.bsp_calendar.specs.declared.fault.PlanFault.TheVariants.{NoMemory};

    ghost from_gives = { λ _ fault. fault ≡ NoMemory };

    fn from(_: AllocError) -> PlanFault {
        PlanFault::NoMemory
    }
}

impl<T: Drop> From<AllocFailed<T>> for PlanFault {
    ghost use Rattle.std.specs.Prelude.{◌≡◌};
    ghost use Rattle.bsp_calendar.specs.declared.fault.PlanFault.TheVariants.{NoMemory};

    ghost from_gives = { λ _ fault. fault ≡ NoMemory };

    fn from(_: AllocFailed<T>) -> PlanFault {
        PlanFault::NoMemory
    }
}
