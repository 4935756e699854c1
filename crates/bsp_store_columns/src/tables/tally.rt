//! The table `tally`: the counts and sums of an agent's items for an airline in a period, without the tax.

ghost use Rattle.std.specs.Prelude.{[], ◌∷◌, ◌≡◌};
ghost use Rattle.bsp_store_columns.specs.Cells.{cell};
ghost use Rattle.sqlite_value.specs.declared.value.Value.TheVariants.{Int};
ghost use Rattle.bsp_store_columns.specs.Reading.{tally_key_in};
ghost use Rattle.bsp_store_columns.specs.Values.{agent_text, airline_text, count, period_text};

use crate::cells::Cell;
use crate::entry::Entry;
use crate::{agent_at, agent_digits, airline_at, airline_digits, period_at, period_digits};
use bsp_rows::{Tally, TallyKey};
use sqlite::Row;

/// The description of the table.
#[macro_export]
macro_rules! tally_table {
    ($rule:ident $($more:tt)*) => {
        $crate::of_table! { $rule $($more)* "tally" 18
            (1 "agent" [TEXT NOT NULL], 2 "airline" [TEXT NOT NULL], 3 "period" [TEXT NOT NULL])
            (4 "accepted" [INTEGER NOT NULL], 5 "living" [INTEGER NOT NULL], 6 "canx" [INTEGER NOT NULL],
                7 "memo_count" [INTEGER NOT NULL], 8 "cash" [INTEGER NOT NULL], 9 "credit" [INTEGER NOT NULL],
                10 "commission" [INTEGER NOT NULL], 11 "memos" [INTEGER NOT NULL]) }
    };
}

fn count_cell(number: u32) -> Cell
    ensures { cell result ≡ count number }
{
    Cell::Int(number as i64)
}

fn sum_cell(sum: i64) -> Cell
    ensures { cell result ≡ Int sum }
{
    Cell::Int(sum)
}

impl Entry for (TallyKey, Tally) {
    type Cells = [Cell; 11];

    ghost row = { λ e. agent_text e.0.agent ∷ airline_text e.0.airline ∷ period_text e.0.period
        ∷ count e.1.accepted ∷ count e.1.living ∷ count e.1.canx ∷ count e.1.memo_count
        ∷ Int e.1.cash ∷ Int e.1.credit ∷ Int e.1.commission ∷ Int e.1.memos ∷ [] };

    fn cells(&self) -> [Cell; 11] {
        let (key, tally) = self;
        [
            Cell::Eight(agent_digits(key.agent)),
            Cell::Three(airline_digits(key.airline)),
            Cell::Five(period_digits(key.period)),
            count_cell(tally.accepted),
            count_cell(tally.living),
            count_cell(tally.canx),
            count_cell(tally.memo_count),
            sum_cell(tally.cash),
            sum_cell(tally.credit),
            sum_cell(tally.commission),
            sum_cell(tally.memos),
        ]
    }
}

/// The tally's key that the first three columns of a row read as; none where they read as no such key.
pub fn read_tally_key(row: &Row) -> Option<TallyKey>
    ensures { result ≡ tally_key_in row.now }
{
    let agent = agent_at(row, 0)?;
    let airline = airline_at(row, 1)?;
    let period = period_at(row, 2)?;
    Some(TallyKey {
        agent,
        airline,
        period,
    })
}
