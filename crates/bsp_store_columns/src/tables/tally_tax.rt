//! The table `tally_tax`: the tax on commission of each tally, under the key of the tally.

ghost use Rattle.std.specs.Prelude.{[], ◌∷◌};
ghost use Rattle.sqlite_value.specs.declared.value.Value.TheVariants.{Int};
ghost use Rattle.bsp_store_columns.specs.Values.{agent_text, airline_text, period_text};

use crate::cells::Cell;
use crate::entry::Entry;
use crate::{agent_digits, airline_digits, period_digits};
use bsp_rows::TallyKey;

/// The description of the table.
#[macro_export]
macro_rules! tally_tax_table {
    ($rule:ident $($more:tt)*) => {
        $crate::of_table! { $rule $($more)* "tally_tax" 24
            (1 "agent" [TEXT NOT NULL], 2 "airline" [TEXT NOT NULL], 3 "period" [TEXT NOT NULL])
            (4 "tax" [INTEGER NOT NULL]) }
    };
}

impl Entry for (TallyKey, i64) {
    type Cells = [Cell; 4];

    ghost row = { λ e. agent_text e.0.agent ∷ airline_text e.0.airline ∷ period_text e.0.period ∷ Int e.1 ∷ [] };

    fn cells(&self) -> [Cell; 4] {
        let (key, tax) = self;
        [
            Cell::Eight(agent_digits(key.agent)),
            Cell::Three(airline_digits(key.airline)),
            Cell::Five(period_digits(key.period)),
            Cell::Int(*tax),
        ]
    }
}
