//! The table `agent`: the token of each agent, under its code.

ghost use Rattle.bsp_rows.specs.Tokens.{is_token};
ghost use Rattle.std.specs.Prelude.{[], ◌∷◌, ◌≡◌, true};
ghost use Rattle.sqlite_value.specs.declared.value.Value.TheVariants.{Text};
ghost use Rattle.bsp_store_columns.specs.Values.{agent_text, IsAgent};

use crate::agent_digits;
use crate::cells::Cell;
use crate::column::End;
use crate::entry::{Entry, ReadEntry};
use bsp_rows::{AgentCode, Token};

/// The description of the table.
#[macro_export]
macro_rules! agent_table {
    ($rule:ident $($more:tt)*) => {
        $crate::of_table! { $rule $($more)* "agent" 10
            (1 "code" [TEXT NOT NULL])
            (2 "token" [TEXT NOT NULL]) }
    };
}

impl Entry for (AgentCode, Token) {
    type Cells = [Cell; 2];

    ghost row = { λ e. agent_text e.0 ∷ Text e.1 ∷ [] };

    fn cells(&self) -> [Cell; 2] {
        [Cell::Eight(agent_digits(self.0)), Cell::Token(self.1)]
    }
}

impl ReadEntry for (AgentCode, Token) {
    type Values = (AgentCode, (Token, End));

    ghost columns = { λ e. (e.0, (e.1, record {})) };

    ghost is_formed = { λ e. IsAgent e.0 × (is_token e.1 ≡ true) };

    fn form() {}

    fn of(values: Self::Values) -> Option<Self> {
        let (code, (token, End)) = values;
        Some((code, token))
    }
}
