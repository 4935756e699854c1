//! Reads the bodies of requests about memos.

ghost use Rattle.std.specs.Prelude.{◌≡◌, IfOk, OnOk, false};
ghost use Rattle.bsp_book.specs.Calls.{FallsBack, Faults, Keeps, LeavesLast};
ghost use Rattle.bsp_desk_writes.specs.Answered.{IsMalformed};

use bsp_book::{Book, BookFault};
use bsp_desk_sales::give_up;
use bsp_messages::{Answer, BodyFault, RequestRefusal};

/// The answer to a body that was not read.
///
/// # Errors
///
/// `NoRoom` where an allocation was refused; then what the transaction wrote is undone. `Failed`.
pub(crate) fn not_read<B: Book>(book: &mut B, fault: BodyFault) -> Result<Answer, BookFault>
    requires { B.means.has_failed book.old ≡ false }
    ensures malformed { IfOk result (IsMalformed fault) }
    ensures ok { OnOk result (Keeps B.means book.old book.new) }
    ensures fault { Faults B.means book.old book.new (FallsBack B.means book.old book.new) (LeavesLast B.means book.old book.new) result }
{
    match fault {
        BodyFault::Malformed => Ok(Answer::Refused(RequestRefusal::Malformed)),
        BodyFault::NoRoom => give_up(book),
    }
}
