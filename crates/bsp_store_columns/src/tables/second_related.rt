//! The table `second_related`: the second related document of a ticket, under the agent and the number of the ticket.

ghost use Rattle.std.specs.Prelude.{[], ◌∷◌, ◌<◌, ◌^◌, length, ◌≡◌};
ghost use Rattle.sqlite_value.specs.declared.value.Value.TheVariants.{Text};
ghost use Rattle.bsp_store_columns.specs.Tickets.{IsCheckedDocument};
ghost use Rattle.bsp_store_columns.specs.Values.{agent_text, airline_text, number_text, IsAgent};

use crate::cells::Cell;
use crate::column::End;
use crate::entry::{Entry, ReadEntry};
use crate::tickets::document_of;
use crate::{TicketKey, agent_digits, airline_digits, number_digits};
use bsp_rows::{AgentCode, AirlineCode, DocNumber, ReportedDocument};

/// The description of the table.
#[macro_export]
macro_rules! second_related_table {
    ($rule:ident $($more:tt)*) => {
        $crate::of_table! { $rule $($more)* "second_related" 26
            (1 "agent" [TEXT NOT NULL], 2 "number" [TEXT NOT NULL])
            (3 "airline" [TEXT NOT NULL], 4 "rel_number" [TEXT NOT NULL]) }
    };
}

impl Entry for (TicketKey, ReportedDocument) {
    type Cells = [Cell; 4];

    ghost row = { λ e. agent_text e.0.agent ∷ number_text e.0.number ∷ airline_text e.1.airline ∷ Text e.1.number ∷ [] };

    fn cells(&self) -> [Cell; 4] {
        let (key, document) = self;
        [
            Cell::Eight(agent_digits(key.agent)),
            Cell::Ten(number_digits(key.number)),
            Cell::Three(airline_digits(document.airline)),
            Cell::Ten(document.number),
        ]
    }
}

impl ReadEntry for (TicketKey, ReportedDocument) {
    type Values = (AgentCode, (DocNumber, (AirlineCode, ([u8; 10], End))));

    ghost columns = { λ e. (e.0.agent, (e.0.number, (e.1.airline, (e.1.number, record {})))) };

    ghost is_formed = { λ e. IsAgent e.0.agent × (e.0.number < 10 ^ 10) × (e.1.airline < 10 ^ 3) × (length e.1.number ≡ 10) };

    ghost is_whole = { λ e. IsCheckedDocument e.1 };

    fn form() {}

    fn of(values: Self::Values) -> Option<Self> {
        let (agent, (number, document)) = values;
        let (airline, (digits, End)) = document;
        Some((TicketKey { agent, number }, document_of(airline, digits)?))
    }
}
