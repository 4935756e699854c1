//! The table of the airlines: their places in the plan and their tokens.

ghost use Rattle.std.specs.Prelude.{◌≡◌};
ghost use Rattle.std.specs.Option.{ForSome};
ghost use Rattle.bsp_store_base.specs.Base.{HasStoredPlace};

use bsp_rows::AirlineCode;
use bsp_store_base::{KeyedTable, Statements};
use bsp_store_columns::{AirlineEntry, Cell, airline_digits, table};
use std::marker::Model;

/// An airline whose place, if it has one, fits the integers of a store.
#[derive(Clone, Copy)]
pub struct StoredAirline {
    airline: AirlineEntry,
}

impl Model for StoredAirline {
    ghost use Rattle.bsp_store_columns.specs.Airlines.{HasStoredPlace};
    ghost use Rattle.bsp_store_columns.specs.declared.airlines.AirlineEntry.{AirlineEntry as Entry};

    ghost Value = { Entry };

    ghost view = { λ stored. stored.airline };

    ghost inverse = { λ airline. record { airline = airline } };

    ghost invariant = { λ stored. HasStoredPlace stored.airline };
}

impl StoredAirline {
    /// The airline, or none.
    pub fn of(airline: Option<AirlineEntry>) -> Option<StoredAirline>
        requires { ForSome airline HasStoredPlace }
        ensures { result ≡ airline }
    {
        match airline {
            Some(airline) => Some(StoredAirline { airline }),
            None => None,
        }
    }

    fn entry(&self) -> AirlineEntry
        ensures value { result ≡ self.now }
        ensures stored { HasStoredPlace result }
    {
        self.airline
    }
}

/// The table of the airlines: their places in the plan and their tokens.
pub struct Airlines;

impl KeyedTable<AirlineCode, StoredAirline> for Airlines {
    ghost use Rattle.std.specs.Ordering.{nat_cmp};
    ghost use Rattle.bsp_store_rows.specs.Tables.{airlines_map};

    type KeyCells = [Cell; 1];

    type Entry = (AirlineCode, AirlineEntry);

    ghost order = { nat_cmp };

    ghost table = { airlines_map };

    #[tactic(auto, using(crate::proofs::Tables::airlines_lawful))]
    fn statements(&self) -> Statements {
        Statements {
            delete: table!(airline, delete),
            insert: table!(airline, insert),
            update: table!(airline, update),
            query: table!(airline, select),
        }
    }

    fn key_cells(&self, code: &AirlineCode) -> [Cell; 1] {
        [Cell::Three(airline_digits(*code))]
    }

    fn entry(&self, code: &AirlineCode, airline: &StoredAirline) -> (AirlineCode, AirlineEntry) {
        (*code, airline.entry())
    }
}
