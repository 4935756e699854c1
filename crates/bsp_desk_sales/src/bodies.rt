//! The answer to a body that is not read.

ghost use Rattle.std.specs.Prelude.{◌≡◌, false, IfOk, OnErr};
ghost use Rattle.bsp_book.specs.Calls.{FallsBack, Faults, LeavesLast};
ghost use Rattle.bsp_desk_sales.specs.Replies.{IsMalformed};
ghost use Rattle.bsp_messages.specs.declared.fault.BodyFault.TheVariants.{NoRoom};

use crate::memory::give_up;
use bsp_book::{Book, BookFault};
use bsp_messages::{Answer, BodyFault, RequestRefusal};

/// Answers a body of which a reader gave this fault: it is malformed, or the request is given up.
///
/// # Errors
///
/// Of a fault for want of memory alone: `NoRoom`, or `Failed`.
pub fn unread<B: Book>(book: &mut B, fault: BodyFault) -> Result<Answer, BookFault>
    requires { B.means.has_failed book.old ≡ false }
    ensures malformed { IfOk result (λ answer. IsMalformed book.old book.new fault answer) }
    ensures given_up { OnErr result (fault ≡ NoRoom) }
    ensures fault { Faults B.means book.old book.new (FallsBack B.means book.old book.new) (LeavesLast B.means book.old book.new) result }
{
    match fault {
        BodyFault::Malformed => Ok(Answer::Refused(RequestRefusal::Malformed)),
        BodyFault::NoRoom => give_up(book),
    }
}
