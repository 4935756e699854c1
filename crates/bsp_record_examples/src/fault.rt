//! Why a line has no answer.

use bsp_book::BookFault;
use bsp_fields::FieldFault;
use bsp_hot::HotFault;
use bsp_ret::{FaultCode, RetFault};
use bsp_statement::StatementFault;
use std::alloc::AllocError;
use std::io;

/// Why a line has no answer.
#[derive(Clone, Copy)]
pub enum Fault {
    /// It is no case: a word, a number, a name or a file is not in its form.
    Case,
    /// Memory was short.
    Memory,
    /// Standard input or output failed.
    Stream,
}

impl Fault {
    /// What is printed about it.
    pub fn text(self) -> &'static str {
        match self {
            Fault::Case => "no case: a word, a number, a name or a file is not in its form",
            Fault::Memory => "out of memory",
            Fault::Stream => "standard input or output failed",
        }
    }
}

/// What a call gives that appends its answer itself.
pub type Answered = Result<(), Fault>;

impl From<RetFault> for Fault {
    fn from(fault: RetFault) -> Fault {
        match fault.code {
            FaultCode::F10 => Fault::Memory,
            _ => Fault::Case,
        }
    }
}

impl From<FieldFault> for Fault {
    fn from(_: FieldFault) -> Fault {
        Fault::Case
    }
}

impl From<StatementFault> for Fault {
    fn from(fault: StatementFault) -> Fault {
        match fault {
            StatementFault::NoMemory => Fault::Memory,
            StatementFault::NotClosed => Fault::Case,
        }
    }
}

impl From<HotFault> for Fault {
    fn from(fault: HotFault) -> Fault {
        match fault {
            HotFault::NoMemory => Fault::Memory,
            HotFault::NotClosed | HotFault::TooWide => Fault::Case,
        }
    }
}

impl From<BookFault> for Fault {
    fn from(_: BookFault) -> Fault {
        Fault::Memory
    }
}

impl From<AllocError> for Fault {
    fn from(_: AllocError) -> Fault {
        Fault::Memory
    }
}

impl From<io::Error> for Fault {
    fn from(_: io::Error) -> Fault {
        Fault::Stream
    }
}
