//! The book: what each look-up and each write makes of the rows of all callers, and a book in memory.
#![tactic(auto)]

mod book;
mod fault;
mod list;

pub use book::Book;
pub use bsp_memory_rows::UsedRange;
pub use fault::BookFault;
pub use list::ListBook;
