//! What a book in memory and the tables that keep it owe to each other.

ghost use Rattle.std.specs.Prelude.{◌≡◌, IsTrue, OnErr, OnOk, false, refl};

use bsp_book::{Book, ListBook};
use bsp_store_save::{recover, save};
use sqlite::{Alter, Connection, Error};
use std::alloc::Global;

/// A book that never fails, since its rows are in memory.
pub trait InMemory: Book {
    // no call answers `Failed`
    ghost works: { (book : Self) → Self.Book.means.has_failed book ≡ false };

    // what it reads is right
    ghost is_right: { (book : Self) → Self.Book.means.trusts book };
}

impl InMemory for ListBook {
    ghost works = { λ book. refl };

    ghost is_right = { λ book. tt };
}

/// What keeps the rows of a book in memory from one commit to the next.
pub trait Keeps<L: Book> {
    ghost use Rattle.bsp_rows.specs.Rows.{Rows};
    ghost use Rattle.bsp_store_open.specs.Formed.{AreFormed};
    ghost use Rattle.bsp_store.specs.Keeping.{IfKept};

    // it has these rows, and no transaction is open
    ghost keeps: { Self → Rows → Type 0 };

    // a transaction from the first rows to the second has failed, and is to be given up
    ghost has_stopped: { Self → Rows → Rows → Type 0 };

    // a stop leaves the first rows or the second
    ghost leaves: { Self → Rows → Rows → Type 0 };

    /// Writes what has changed in the book since its last commit, in one transaction.
    ///
    /// # Errors
    ///
    /// The transaction is then to be given up.
    fn save(&mut self, alloc: Global, book: &L) -> Result<(), Error>
        ensures ok { OnOk result (IfKept L.Book.means keeps book.now self.old (λ last now. keeps self.new now)) }
        ensures err { OnErr result (IfKept L.Book.means keeps book.now self.old (λ last now. has_stopped self.new last now)) };

    /// Gives up a transaction that has failed. Whether the store can still be used, and nothing is left of it.
    fn recover(&mut self) -> bool
        ensures undone { IsTrue result → (last now : Rows) → has_stopped self.old last now → keeps self.new last }
        ensures stop { (last now : Rows) → has_stopped self.old last now → leaves self.new last now };

    // A stop leaves the rows that it has, whatever it had before.
    ghost rests: { (it : Self) (before rows : Rows) → AreFormed rows → keeps it rows → leaves it before rows };

    // Of two contents that a stop may leave, one may be the other.
    ghost wider: { (it : Self) (a b : Rows) → leaves it a a → leaves it a b };
}

impl<S: Alter> Keeps<ListBook> for Connection<S> {
    ghost use Rattle.std.proofs.Common.{inl, inr};
    ghost use Rattle.bsp_store_open.specs.Opening.{KeepsAtRest};
    ghost use Rattle.bsp_store.specs.Keeping.{HasStopped, LeavesOne};

    ghost keeps = { KeepsAtRest S.Store };

    ghost has_stopped = { HasStopped S.Store };

    ghost leaves = { LeavesOne S.Store };

    ghost rests = { λ conn before rows formed kept clean db may. elim (kept.2.0.leaves clean db may) [ inl a ↦ inr (record { formed = formed; keeps = (kept.0, kept.1, a.0); sound = a.1 }) | inr b ↦ inr (record { formed = formed; keeps = (kept.0, kept.1, b.0); sound = b.1 }) ] };

    ghost wider = { λ conn a b one clean db may. elim (one clean db may) [ inl it ↦ inl it | inr it ↦ inl it ] };

    fn save(&mut self, alloc: Global, book: &ListBook) -> Result<(), Error> {
        save(alloc, self, book.tables())
    }

    fn recover(&mut self) -> bool {
        recover(self)
    }
}
