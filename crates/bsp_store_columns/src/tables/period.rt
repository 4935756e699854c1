//! The table `period`: the billing periods of the plan, under their codes, each with its place in the plan.

ghost use Rattle.bsp_rows.specs.CivilDay.{is_day};
ghost use Rattle.std.specs.Prelude.{[], ◌<◌, ◌^◌, ◌∷◌, IsTrue};
ghost use Rattle.sqlite_value.specs.declared.value.Value.TheVariants.{Int};
ghost use Rattle.bsp_store_columns.specs.Values.{count, period_text};
ghost use Rattle.bsp_rows.specs.Days.{day_number};

use crate::cells::Cell;
use crate::column::End;
use crate::entry::{Entry, ReadEntry};
use crate::period_digits;
use bsp_rows::{Day, Period, PeriodCode};

/// The description of the table.
#[macro_export]
macro_rules! period_table {
    ($rule:ident $($more:tt)*) => {
        $crate::of_table! { $rule $($more)* "period" 8
            (1 "code" [TEXT NOT NULL])
            (2 "place" [INTEGER NOT NULL], 3 "begins" [INTEGER NOT NULL], 4 "ends" [INTEGER NOT NULL],
                5 "remit" [INTEGER NOT NULL]) }
    };
}

impl Entry for (usize, Period) {
    type Cells = [Cell; 5];

    ghost row = { λ e. period_text e.1.code ∷ count e.0 ∷ Int (day_number e.1.first) ∷ Int (day_number e.1.last)
        ∷ Int (day_number e.1.remittance) ∷ [] };

    ghost fits = { λ e. e.0 < 2 ^ 63 };

    fn cells(&self) -> [Cell; 5] {
        let (place, period) = self;
        [
            Cell::Five(period_digits(period.code)),
            Cell::Int(*place as i64),
            Cell::Int(period.first.number()),
            Cell::Int(period.last.number()),
            Cell::Int(period.remittance.number()),
        ]
    }
}

impl ReadEntry for (usize, Period) {
    type Values = (PeriodCode, (usize, (Day, (Day, (Day, End)))));

    ghost columns = { λ e. (e.1.code, (e.0, (e.1.first, (e.1.last, (e.1.remittance, record {}))))) };

    ghost is_formed = { λ e. (e.1.code < 10 ^ 5) × IsTrue (is_day e.1.first) × IsTrue (is_day e.1.last) × IsTrue (is_day e.1.remittance) };

    fn form() {}

    fn of(values: Self::Values) -> Option<Self> {
        let (code, (place, (first, (last, (remittance, End))))) = values;
        let period = Period {
            code,
            first,
            last,
            remittance,
        };
        Some((place, period))
    }
}
