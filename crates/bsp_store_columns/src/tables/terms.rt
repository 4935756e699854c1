//! The table `terms`, of one row at most: the terms of the market.

ghost use Rattle.bsp_rows.specs.Letters.{currency_reading};
ghost use Rattle.std.specs.Prelude.{[], ◌∷◌, pos, ◌≡◌, Some, ◌<◌, ◌^◌};
ghost use Rattle.sqlite_value.specs.declared.value.Value.TheVariants.{Text};
ghost use Rattle.bsp_store_columns.specs.Values.{count, only_id};

use crate::cells::Cell;
use crate::column::End;
use crate::entry::{Entry, ReadEntry};
use bsp_rows::{Currency, Terms};

/// The description of the table.
#[macro_export]
macro_rules! terms_table {
    ($rule:ident $($more:tt)*) => {
        $crate::of_table! { $rule $($more)* "terms" 2
            (1 "id" [INT NOT NULL])
            (2 "currency" [TEXT NOT NULL], 3 "review" [INTEGER NOT NULL], 4 "documents" [INTEGER NOT NULL]) }
    };
}

impl Entry for Terms {
    type Cells = [Cell; 4];

    ghost row = { λ terms. only_id ∷ Text terms.currency ∷ count terms.review_days ∷ count terms.documents_limit ∷ [] };

    fn cells(&self) -> [Cell; 4] {
        [
            Cell::Int(1),
            Cell::Three(self.currency.letters()),
            Cell::Int(self.review_days as i64),
            Cell::Int(self.documents_limit as i64),
        ]
    }
}

impl ReadEntry for Terms {
    type Values = (i64, (Currency, (u8, (u32, End))));

    ghost columns = { λ terms. (pos 1, (terms.currency, (terms.review_days, (terms.documents_limit, record {})))) };

    ghost is_formed = { λ terms. (currency_reading terms.currency ≡ Some terms.currency) × (terms.review_days < 2 ^ 8) × (terms.documents_limit < 2 ^ 32) };

    fn form() {}

    fn of(values: Self::Values) -> Option<Self> {
        let (id, (currency, (review_days, (documents_limit, End)))) = values;
        if id != 1 {
            return None;
        }
        Some(Terms {
            currency,
            review_days,
            documents_limit,
        })
    }
}
