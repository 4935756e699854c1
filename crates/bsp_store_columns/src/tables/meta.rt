//! The table `meta`, of one row: the version of the tables, the business day, and how many periods are closed.

ghost use Rattle.bsp_rows.specs.CivilDay.{is_day};
ghost use Rattle.std.specs.Prelude.{[], ◌≡◌, ◌<◌, ◌^◌, ◌∷◌, pos, IsTrue};
ghost use Rattle.sqlite_value.specs.declared.value.Value.TheVariants.{Int};
ghost use Rattle.sqlite_value.specs.Order.{column};
ghost use Rattle.bsp_store_columns.specs.Reading.{int_in};
ghost use Rattle.bsp_store_columns.specs.Values.{count, only_id, version};
ghost use Rattle.bsp_rows.specs.Days.{day_number};

use crate::cells::Cell;
use crate::column::End;
use crate::entry::{Entry, ReadEntry};
use crate::int_at;
use bsp_rows::Day;
use sqlite::Row;

/// The description of the table.
#[macro_export]
macro_rules! meta_table {
    ($rule:ident $($more:tt)*) => {
        $crate::of_table! { $rule $($more)* "meta" 0
            (1 "id" [INT NOT NULL])
            (2 "version" [INTEGER NOT NULL], 3 "day" [INTEGER NOT NULL], 4 "closed" [INTEGER NOT NULL]) }
    };
}

/// The version of the tables.
pub const VERSION: i64 = 3;

/// What the row has beside the version: the business day, and how many periods are closed.
#[derive(Clone, Copy, Drop)]
pub struct Meta {
    /// The business day.
    pub day: Day,
    /// How many periods are closed.
    pub closed: usize,
}

/// The version of the tables that a row of the table has.
pub fn read_version(row: &Row) -> Option<i64>
    ensures { result ≡ int_in (column row.now 1) }
{
    int_at(row, 1)
}

impl Entry for Meta {
    type Cells = [Cell; 4];

    ghost row = { λ meta. only_id ∷ count version ∷ Int (day_number meta.day) ∷ count meta.closed ∷ [] };

    ghost fits = { λ meta. meta.closed < 2 ^ 63 };

    fn cells(&self) -> [Cell; 4] {
        [
            Cell::Int(1),
            Cell::Int(VERSION),
            Cell::Int(self.day.number()),
            Cell::Int(self.closed as i64),
        ]
    }
}

impl ReadEntry for Meta {
    type Values = (i64, (i64, (Day, (usize, End))));

    ghost columns = { λ meta. (pos 1, (pos version, (meta.day, (meta.closed, record {})))) };

    ghost is_formed = { λ meta. IsTrue (is_day meta.day) × (meta.closed < 2 ^ 63) };

    fn form() {}

    fn of(values: Self::Values) -> Option<Self> {
        let (id, (version, (day, (closed, End)))) = values;
        if id != 1 || version != VERSION {
            return None;
        }
        Some(Meta { day, closed })
    }
}
