//! The table `item_tax`: the tax on the commission of each item, under the key of the item.

ghost use Rattle.bsp_rows.specs.Stored.{IsStoredAmount};
ghost use Rattle.std.specs.Prelude.{[], ◌∷◌, ◌<◌, ◌^◌};
ghost use Rattle.sqlite_value.specs.declared.value.Value.TheVariants.{Int};
ghost use Rattle.bsp_store_columns.specs.Values.{agent_text, count, flag, number_text, IsAgent};

use crate::cells::Cell;
use crate::column::End;
use crate::entry::{Entry, ReadEntry};
use crate::{ItemTax, agent_digits, number_digits};
use bsp_rows::{AgentCode, Amount, DocNumber, ItemKey};

/// The description of the table.
#[macro_export]
macro_rules! item_tax_table {
    ($rule:ident $($more:tt)*) => {
        $crate::of_table! { $rule $($more)* "item_tax" 22
            (1 "agent" [TEXT NOT NULL], 2 "number" [TEXT NOT NULL], 3 "canx" [INTEGER NOT NULL])
            (4 "tax" [INTEGER NOT NULL], 5 "hundredths" [INTEGER NOT NULL]) }
    };
}

impl Entry for (ItemKey, ItemTax) {
    type Cells = [Cell; 5];

    ghost row = { λ e. agent_text e.0.agent ∷ number_text e.0.number ∷ flag e.0.is_canx ∷ Int e.1.tax ∷ count e.1.hundredths ∷ [] };

    fn cells(&self) -> [Cell; 5] {
        let (key, tax) = self;
        [
            Cell::Eight(agent_digits(key.agent)),
            Cell::Ten(number_digits(key.number)),
            Cell::flag(key.is_canx),
            Cell::Int(tax.tax.get()),
            Cell::Int(tax.hundredths as i64),
        ]
    }
}

impl ReadEntry for (ItemKey, ItemTax) {
    type Values = (AgentCode, (DocNumber, (bool, (Amount, (u16, End)))));

    ghost columns = { λ e. (e.0.agent, (e.0.number, (e.0.is_canx, (e.1.tax, (e.1.hundredths, record {}))))) };

    ghost is_formed = { λ e. IsAgent e.0.agent × (e.0.number < 10 ^ 10) × IsStoredAmount e.1.tax × (e.1.hundredths < 2 ^ 16) };

    fn form() {}

    fn of(values: Self::Values) -> Option<Self> {
        let (agent, (number, (is_canx, (tax, (hundredths, End))))) = values;
        let key = ItemKey {
            agent,
            number,
            is_canx,
        };
        Some((key, ItemTax { tax, hundredths }))
    }
}
