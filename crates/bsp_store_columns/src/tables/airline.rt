//! The table `airline`: the place in the plan and the token of each airline that is published, registered or both, under its
//! code.

ghost use Rattle.bsp_rows.specs.Tokens.{is_token};
ghost use Rattle.std.specs.Prelude.{[], ◌∷◌, ◌≡◌, Some, ◌<◌, ◌^◌, IfSome, true};
ghost use Rattle.bsp_store_columns.specs.Airlines.{entry_of, HasStoredPlace};
ghost use Rattle.bsp_store_columns.specs.Cells.{cell};
ghost use Rattle.sqlite.specs.Values.{or_null};
ghost use Rattle.sqlite_value.specs.declared.value.Value.TheVariants.{Text};
ghost use Rattle.bsp_store_columns.specs.Values.{airline_text, count};

use crate::cells::Cell;
use crate::column::End;
use crate::entry::{Entry, ReadEntry};
use crate::{AirlineEntry, airline_digits};
use bsp_rows::{AirlineCode, Token};

/// The description of the table.
#[macro_export]
macro_rules! airline_table {
    ($rule:ident $($more:tt)*) => {
        $crate::of_table! { $rule $($more)* "airline" 4
            (1 "code" [TEXT NOT NULL])
            (2 "place" [INTEGER], 3 "token" [TEXT]) }
    };
}

fn place_cell(airline: &AirlineEntry) -> Cell
    requires { HasStoredPlace airline.now }
    ensures { cell result ≡ or_null count airline.now.place }
{
    match airline.place {
        Some(place) => Cell::Int(place as i64),
        None => Cell::Null,
    }
}

fn token_cell(token: Option<Token>) -> Cell
    ensures { cell result ≡ or_null Text token }
{
    match token {
        Some(token) => Cell::Token(token),
        None => Cell::Null,
    }
}

impl Entry for (AirlineCode, AirlineEntry) {
    type Cells = [Cell; 3];

    ghost row = { λ e. airline_text e.0 ∷ or_null count e.1.place ∷ or_null Text e.1.token ∷ [] };

    ghost fits = { λ e. HasStoredPlace e.1 };

    fn cells(&self) -> [Cell; 3] {
        [
            Cell::Three(airline_digits(self.0)),
            place_cell(&self.1),
            token_cell(self.1.token),
        ]
    }
}

impl ReadEntry for (AirlineCode, AirlineEntry) {
    type Values = (AirlineCode, (Option<usize>, (Option<Token>, End)));

    ghost columns = { λ e. (e.0, (e.1.place, (e.1.token, record {}))) };

    ghost is_formed = { λ e. (e.0 < 10 ^ 3) × HasStoredPlace e.1 × IfSome e.1.token (λ token. is_token token ≡ true) };

    ghost is_whole = { λ e. entry_of e.1.place e.1.token ≡ Some e.1 };

    fn form() {}

    fn of(values: Self::Values) -> Option<Self> {
        let (code, (place, (token, End))) = values;
        Some((code, AirlineEntry::of(place, token)?))
    }
}
