//! The table `stock`: the last number of each range of stock, under its agent and its first number.

ghost use Rattle.std.specs.Prelude.{[], ◌∷◌, ◌<◌, ◌^◌};
ghost use Rattle.bsp_store_columns.specs.Values.{agent_text, number_text, IsAgent};

use crate::cells::Cell;
use crate::column::End;
use crate::entry::{Entry, ReadEntry};
use crate::{agent_digits, number_digits};
use bsp_rows::{AgentCode, DocNumber, RangeKey};

/// The description of the table.
#[macro_export]
macro_rules! stock_table {
    ($rule:ident $($more:tt)*) => {
        $crate::of_table! { $rule $($more)* "stock" 12
            (1 "agent" [TEXT NOT NULL REFERENCES "agent"], 2 "lo" [TEXT NOT NULL])
            (3 "hi" [TEXT NOT NULL]) }
    };
}

impl Entry for (RangeKey, DocNumber) {
    type Cells = [Cell; 3];

    ghost row = { λ e. agent_text e.0.agent ∷ number_text e.0.first ∷ number_text e.1 ∷ [] };

    fn cells(&self) -> [Cell; 3] {
        [
            Cell::Eight(agent_digits(self.0.agent)),
            Cell::Ten(number_digits(self.0.first)),
            Cell::Ten(number_digits(self.1)),
        ]
    }
}

impl ReadEntry for (RangeKey, DocNumber) {
    type Values = (AgentCode, (DocNumber, (DocNumber, End)));

    ghost columns = { λ e. (e.0.agent, (e.0.first, (e.1, record {}))) };

    ghost is_formed = { λ e. IsAgent e.0.agent × (e.0.first < 10 ^ 10) × (e.1 < 10 ^ 10) };

    fn form() {}

    fn of(values: Self::Values) -> Option<Self> {
        let (agent, (first, (last, End))) = values;
        Some((RangeKey { agent, first }, last))
    }
}
