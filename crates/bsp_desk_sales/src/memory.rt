//! Gives up an open transaction when memory is refused.

ghost use Rattle.std.specs.Prelude.{IfOk};
ghost use Rattle.bsp_book.specs.Calls.{FallsBack, Faults, LeavesLast};

use bsp_book::{Book, BookFault};

/// Undoes what the open transaction wrote, because an allocation was refused.
///
/// # Errors
///
/// Always: `NoRoom`, or `Failed` where the book has failed.
pub fn give_up<B: Book, T>(book: &mut B) -> Result<T, BookFault>
    ensures refused { IfOk result (λ found. ⊥) }
    ensures fault { Faults B.means book.old book.new (FallsBack B.means book.old book.new) (LeavesLast B.means book.old book.new) result }
{
    book.roll_back()?;
    Err(BookFault::NoRoom)
}
