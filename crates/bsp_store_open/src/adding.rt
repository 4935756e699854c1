//! The tables that an older version lacks are made and filled.

ghost use Rattle.bsp_store_open.specs.Filled.{IsFilling};

use crate::old_versions::OldVersion;
use bsp_store_columns::table;
use sqlite::{Alter, Connection, Error};

/// The texts that make the tables of taxes, with a tax of 0 for each item and each tally: from the tables of version 1 to
/// those of version 2, where `meta` keeps its number.
const TAXES: &str = table!(commission_tax, create [item_tax tally_tax
    "INSERT INTO item_tax (agent, number, canx, tax, hundredths) SELECT agent, number, canx, 0, 0 FROM item; \
    INSERT INTO tally_tax (agent, airline, period, tax) SELECT agent, airline, period, 0 FROM tally"] {});

/// The texts that make the table of second related documents, with no row, and put version 3 into `meta`: from
/// the tables of version 2 to ours.
const SECONDS: &str = table!(second_related, create ["UPDATE meta SET version = 3"] {});

/// Brings the tables of an older version to ours, in the transaction that is open on the connection. It stays open, and
/// nothing is committed.
///
/// # Errors
///
/// That of the statement which failed.
pub fn fill<S: Alter>(conn: &mut Connection<S>, version: OldVersion) -> Result<(), Error>
    ensures { IsFilling S.Store version conn.old conn.new result }
{
    match version {
        OldVersion::First => {
            conn.execute_batch(TAXES)?;
            conn.execute_batch(SECONDS)
        }
        OldVersion::Second => conn.execute_batch(SECONDS),
    }
}
