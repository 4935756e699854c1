//! The table `rate`: the rates of commission of the plan, under their airline and first day, each with its place in the plan.

ghost use Rattle.bsp_rows.specs.CivilDay.{is_day};
ghost use Rattle.std.specs.Prelude.{[], ◌<◌, ◌^◌, ◌∷◌, IsTrue};
ghost use Rattle.sqlite_value.specs.declared.value.Value.TheVariants.{Int};
ghost use Rattle.bsp_store_columns.specs.Values.{airline_text, count};
ghost use Rattle.bsp_rows.specs.Days.{day_number};

use crate::airline_digits;
use crate::cells::Cell;
use crate::column::End;
use crate::entry::{Entry, ReadEntry};
use bsp_rows::{AirlineCode, Day, Rate};

/// The description of the table.
#[macro_export]
macro_rules! rate_table {
    ($rule:ident $($more:tt)*) => {
        $crate::of_table! { $rule $($more)* "rate" 6
            (1 "airline" [TEXT NOT NULL], 2 "begins" [INTEGER NOT NULL])
            (3 "place" [INTEGER NOT NULL], 4 "hundredths" [INTEGER NOT NULL]) }
    };
}

impl Entry for (usize, Rate) {
    type Cells = [Cell; 4];

    ghost row = { λ e. airline_text e.1.airline ∷ Int (day_number e.1.from) ∷ count e.0 ∷ count e.1.hundredths ∷ [] };

    ghost fits = { λ e. e.0 < 2 ^ 63 };

    fn cells(&self) -> [Cell; 4] {
        let (place, rate) = self;
        [
            Cell::Three(airline_digits(rate.airline)),
            Cell::Int(rate.from.number()),
            Cell::Int(*place as i64),
            Cell::Int(rate.hundredths as i64),
        ]
    }
}

impl ReadEntry for (usize, Rate) {
    type Values = (AirlineCode, (Day, (usize, (u16, End))));

    ghost columns = { λ e. (e.1.airline, (e.1.from, (e.0, (e.1.hundredths, record {})))) };

    ghost is_formed = { λ e. (e.1.airline < 10 ^ 3) × IsTrue (is_day e.1.from) × (e.1.hundredths < 2 ^ 16) };

    fn form() {}

    fn of(values: Self::Values) -> Option<Self> {
        let (airline, (from, (place, (hundredths, End)))) = values;
        let rate = Rate {
            airline,
            from,
            hundredths,
        };
        Some((place, rate))
    }
}
