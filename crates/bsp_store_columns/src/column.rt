//! What is read of a row that any program may have written, column by column.

ghost use Rattle.std.specs.Prelude.{◌≢◌, IfSome};
ghost use Rattle.sqlite.specs.Values.{or_null};
ghost use Rattle.sqlite_value.specs.declared.value.Value.TheVariants.{Null};

use crate::is_null;
use sqlite::Row;

/// A value that has one column.
pub trait Column: Sized {
    ghost use Rattle.std.specs.Prelude.{◌≡◌, IfSome, Some};
    ghost use Rattle.sqlite_value.specs.Order.{column};
    ghost use Rattle.sqlite_value.specs.declared.value.Value.{Value};

    // what is written into the column
    ghost cell: { Self → Value };

    // what the program's values are
    ghost is_formed: { Self → Type 0 } = { λ _. Unit {0} };

    /// The value in a column; none where what is there is no such value.
    fn read_at(row: &Row, at: usize) -> Option<Self>
        ensures row { IfSome result (λ x. column row.now at ≡ cell x) }
        ensures back { (x : Self) → is_formed x → column row.now at ≡ cell x → result ≡ Some x };
}

/// A value whose column is never NULL.
pub trait Filled: Column {
    /// This has no effect: what is written is not NULL.
    fn filled()
        ensures { (x : Self) → Self.Column.cell x ≢ Null };
}

impl<T: Filled + Drop> Column for Option<T> {
    ghost cell = { or_null T.Column.cell };

    ghost is_formed = { λ value. IfSome value T.Column.is_formed };

    fn read_at(row: &Row, at: usize) -> Option<Option<T>> {
        T::filled();
        if is_null(row, at) {
            return Some(None);
        }
        Some(Some(T::read_at(row, at)?))
    }
}

/// Values that have a column each, one after another.
pub trait Columns: Sized {
    ghost use Rattle.std.specs.Prelude.{◌≡◌, drop, IfSome, List, Some};
    ghost use Rattle.sqlite_value.specs.declared.value.Value.{Value};

    // what is written into the columns
    ghost cells: { Self → List Value };

    // what the program's values are
    ghost are_formed: { Self → Type 0 };

    /// The values in the columns from one on, which are the last of the row; none where a column has no such value, or the
    /// row has more columns or fewer.
    fn read_from(row: &Row, from: usize) -> Option<Self>
        ensures row { IfSome result (λ x. drop from row.now ≡ cells x) }
        ensures back { (x : Self) → are_formed x → drop from row.now ≡ cells x → result ≡ Some x };
}

/// No more columns.
#[derive(Clone, Copy, Drop)]
pub struct End;

impl Columns for End {
    ghost use Rattle.std.specs.Prelude.{[], ⊤};

    ghost cells = { λ _. [] };

    ghost are_formed = { λ _. ⊤ };

    fn read_from(row: &Row, from: usize) -> Option<End> {
        if from < row.column_count() {
            return None;
        }
        Some(End)
    }
}

impl<A: Column + Drop, B: Columns + Drop> Columns for (A, B) {
    ghost use Rattle.std.specs.Prelude.{◌∷◌};

    ghost cells = { λ p. A.Column.cell p.0 ∷ B.Columns.cells p.1 };

    ghost are_formed = { λ p. A.Column.is_formed p.0 × B.Columns.are_formed p.1 };

    fn read_from(row: &Row, from: usize) -> Option<(A, B)> {
        if from >= row.column_count() {
            return None;
        }
        let first = A::read_at(row, from)?;
        let others = B::read_from(row, from + 1)?;
        Some((first, others))
    }
}

impl<
    A: Column + Drop,
    B: Column + Drop,
    C: Column + Drop,
    D: Column + Drop,
    E: Columns + Drop,
> Columns for (A, B, C, D, E) {
    ghost use Rattle.std.specs.Prelude.{◌∷◌};

    ghost cells = { λ p. A.Column.cell p.0 ∷ B.Column.cell p.1 ∷ C.Column.cell p.2 ∷ D.Column.cell p.3 ∷ E.Columns.cells p.4 };

    ghost are_formed = { λ p. A.Column.is_formed p.0 × B.Column.is_formed p.1 × C.Column.is_formed p.2 × D.Column.is_formed p.3 × E.Columns.are_formed p.4 };

    fn read_from(row: &Row, from: usize) -> Option<(A, B, C, D, E)> {
        let (first, (second, (third, (fourth, others)))) = <(A, (B, (C, (D, E))))>::read_from(
            row, from,
        )?;
        Some((first, second, third, fourth, others))
    }
}
