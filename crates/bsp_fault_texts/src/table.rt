//! The table of all codes, by their letters.

ghost use Rattle.std.specs.Prelude.{◌≡◌, is_some, map, option_map};
ghost use Rattle.std.specs.List.{find, flat_map};
ghost use Rattle.std.specs.Str.{bytes_eq};
ghost use Rattle.bsp_fault_texts.specs.Codes.{is_code};
ghost use Rattle.bsp_fault_texts.specs.Table.{entry_named, said_by, said_in, table};

use crate::books::BOOKS;
use crate::entry::{Entry, Row};
use crate::files::{F01_TO_F03, F04_TO_F05, F06_TO_F10};
use crate::memos::{M01_TO_M04, M05_TO_M08};
use crate::plans::{P01_TO_P02, P03_TO_P05, P06_TO_P09};
use crate::reports::{DOCUMENTS, HOT_FILES, PERIODS};
use crate::requests::{HEADS, N01_TO_N03, N04, N05_TO_N06};
use crate::stocks::STOCKS;
use crate::verdicts::{E01_TO_E06, E07_TO_E09, E10_TO_E12};

#[tactic(auto, unfolding(crate::specs::Table::table))]
/// The table in its parts.
pub(crate) fn parts() -> [&'static [Row]; 20]
    ensures { flat_map (λ part. map said_in part.now) result ≡ table }
{
    [
        &N01_TO_N03,
        &N04,
        &N05_TO_N06,
        &HEADS,
        &F01_TO_F03,
        &F04_TO_F05,
        &F06_TO_F10,
        &E01_TO_E06,
        &E07_TO_E09,
        &E10_TO_E12,
        &P01_TO_P02,
        &P03_TO_P05,
        &P06_TO_P09,
        &STOCKS,
        &M01_TO_M04,
        &M05_TO_M08,
        &DOCUMENTS,
        &PERIODS,
        &HOT_FILES,
        &BOOKS,
    ]
}

/// What some rows say of a code: the first that has it, or none.
fn entry_in(rows: &[Row], code: &str) -> Option<Entry>
    ensures { option_map said_by result ≡ find (λ s. bytes_eq s.code code.now) (map said_in rows.now) }
{
    for row in rows {
        if row.0 == code {
            let (code, status, meaning, remedy, causes) = *row;
            return Some(Entry {
                code,
                status,
                meaning,
                remedy,
                causes,
            });
        }
    }
    None
}

/// What is said of a code, and none of a text that is no code.
pub fn entry_of(code: &str) -> Option<Entry>
    ensures entry { option_map said_by result ≡ entry_named code.now }
    ensures known { is_some result ≡ is_code code.now }
{
    let parts: &[&[Row]] = &parts();
    for rows in parts {
        if let Some(entry) = entry_in(rows, code) {
            return Some(entry);
        }
    }
    None
}
