//! The table `commission_tax`: the taxes on commission of the plan, under their first day, each with its place in the plan.

ghost use Rattle.bsp_rows.specs.CivilDay.{is_day};
ghost use Rattle.std.specs.Prelude.{[], ◌<◌, ◌^◌, ◌∷◌, IsTrue};
ghost use Rattle.sqlite_value.specs.declared.value.Value.TheVariants.{Int};
ghost use Rattle.bsp_store_columns.specs.Values.{count};
ghost use Rattle.bsp_rows.specs.Days.{day_number};

use crate::cells::Cell;
use crate::column::End;
use crate::entry::{Entry, ReadEntry};
use bsp_rows::{CommissionTax, Day};

/// The description of the table.
#[macro_export]
macro_rules! commission_tax_table {
    ($rule:ident $($more:tt)*) => {
        $crate::of_table! { $rule $($more)* "commission_tax" 20
            (1 "begins" [INT NOT NULL])
            (2 "place" [INTEGER NOT NULL], 3 "hundredths" [INTEGER NOT NULL]) }
    };
}

impl Entry for (usize, CommissionTax) {
    type Cells = [Cell; 3];

    ghost row = { λ e. Int (day_number e.1.from) ∷ count e.0 ∷ count e.1.hundredths ∷ [] };

    ghost fits = { λ e. e.0 < 2 ^ 63 };

    fn cells(&self) -> [Cell; 3] {
        let (place, tax) = self;
        [
            Cell::Int(tax.from.number()),
            Cell::Int(*place as i64),
            Cell::Int(tax.hundredths as i64),
        ]
    }
}

impl ReadEntry for (usize, CommissionTax) {
    type Values = (Day, (usize, (u16, End)));

    ghost columns = { λ e. (e.1.from, (e.0, (e.1.hundredths, record {}))) };

    ghost is_formed = { λ e. IsTrue (is_day e.1.from) × (e.1.hundredths < 2 ^ 16) };

    fn form() {}

    fn of(values: Self::Values) -> Option<Self> {
        let (from, (place, (hundredths, End))) = values;
        Some((place, CommissionTax { from, hundredths }))
    }
}
