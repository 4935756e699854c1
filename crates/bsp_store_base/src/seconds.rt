//! The table of the second related document of each ticket.

use crate::{KeyedTable, Statements};
use bsp_rows::ReportedDocument;
use bsp_store_columns::{Cell, TicketKey, agent_digits, number_digits, table};

/// The table of the second related documents of tickets.
pub struct Seconds;

impl KeyedTable<TicketKey, ReportedDocument> for Seconds {
    ghost use Rattle.bsp_store_base.specs.Seconds.{ticket_cmp};
    ghost use Rattle.bsp_store_base.specs.ItemTables.{seconds_map};

    type KeyCells = [Cell; 2];

    type Entry = (TicketKey, ReportedDocument);

    ghost order = { ticket_cmp };

    ghost table = { seconds_map };

    fn statements(&self) -> Statements {
        Statements {
            delete: table!(second_related, delete),
            insert: table!(second_related, insert),
            update: table!(second_related, update),
            query: table!(second_related, select),
        }
    }

    fn key_cells(&self, key: &TicketKey) -> [Cell; 2] {
        [
            Cell::Eight(agent_digits(key.agent)),
            Cell::Ten(number_digits(key.number)),
        ]
    }

    fn entry(&self, key: &TicketKey, document: &ReportedDocument) -> (TicketKey, ReportedDocument) {
        (*key, *document)
    }
}
