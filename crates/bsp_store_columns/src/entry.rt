//! The entries of tables: the row of each, and the entry that a row reads as.

ghost use Rattle.std.specs.Prelude.{◌≡◌, IfSome, Some};

use crate::cells::Cell;
use crate::column::Columns;
use sqlite::Row;

/// The cells of a row, in an array.
pub trait CellArray: Sized {
    ghost use Rattle.std.specs.Prelude.{◌≡◌, List};
    ghost use Rattle.bsp_store_columns.specs.declared.cells.Cell.{Cell as Written};

    // the cells
    ghost list: { Self → List Written };

    /// The cells.
    fn as_cells(&self) -> &[Cell]
        ensures { result.now ≡ list self.now };
}

impl<const N: usize> CellArray for [Cell; N] {
    ghost list = { λ cells. cells };

    fn as_cells(&self) -> &[Cell] {
        self
    }
}

/// An entry of a table, which has a row there.
pub trait Entry: Sized {
    ghost use Rattle.std.specs.Prelude.{◌≡◌, ◌≤◌, length};
    ghost use Rattle.sqlite_value.specs.Order.{Row as Stored};
    ghost use Rattle.bsp_store_columns.specs.Cells.{widest, written};

    /// The cells of its row.
    type Cells: CellArray + Drop;

    // its row
    ghost row: { Self → Stored };

    // its numbers are integers of a store
    ghost fits: { Self → Type 0 } = { λ _. Unit {0} };

    /// The cells of its row.
    fn cells(&self) -> Self::Cells
        requires { fits self.now }
        ensures written { written (Self.Cells.CellArray.list result) ≡ row self.now }
        ensures narrow { length (Self.Cells.CellArray.list result) ≤ widest };
}

/// An entry that is read back of its row.
pub trait ReadEntry: Sized {
    ghost use Rattle.std.specs.Prelude.{◌≡◌, IfSome, Some};

    /// The values of its columns, in their order.
    type Values: Columns;

    // the values of its columns
    ghost columns: { Self → Self.Values };

    // what the program's types say of an entry
    ghost is_formed: { Self → Type 0 };

    // what an entry is beside that
    ghost is_whole: { Self → Type 0 } = { λ _. Unit {0} };

    /// This has no effect: the values of an entry have the forms of their columns.
    fn form()
        ensures { (x : Self) → is_formed x → is_whole x → Self.Values.Columns.are_formed (columns x) };

    /// The entry with these values, and none where there is none.
    fn of(values: Self::Values) -> Option<Self>
        ensures same { IfSome result (λ x. columns x ≡ values) }
        ensures whole { IfSome result is_whole }
        ensures back { (x : Self) → is_whole x → columns x ≡ values → result ≡ Some x };
}

/// The entry that a row reads as; none where it is the row of none.
pub fn read_entry<E: ReadEntry>(row: &Row) -> Option<E>
    ensures row { IfSome result (λ x. row.now ≡ E.Values.Columns.cells (E.ReadEntry.columns x)) }
    ensures whole { IfSome result E.ReadEntry.is_whole }
    ensures back { (x : E) → E.ReadEntry.is_formed x → E.ReadEntry.is_whole x → row.now ≡ E.Values.Columns.cells (E.ReadEntry.columns x) → result ≡ Some x }
{
    E::form();
    let values = E::Values::read_from(row, 0)?;
    E::of(values)
}
