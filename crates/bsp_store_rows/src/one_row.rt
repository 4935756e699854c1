//! The tables of one row: `meta`, of the version of the tables and the business day, and that of the terms.

ghost use Rattle.std.specs.Prelude.{◌≡◌, is_some, None, Some, OnOk, OnErr, ⊤};
ghost use Rattle.bsp_store_base.specs.Sqlite.{HasCleanDisk, state, Survives};
ghost use Rattle.bsp_store_base.specs.Base.{Changes, Content, form, GivesUp, Keeps, KeepsSound, meta_part, ShowsTable, terms_part};

use bsp_rows::{Day, Terms};
use bsp_store_base::run_entry;
use bsp_store_columns::{Entry, Meta, table, values_of};
use sqlite::{Alter, Connection, Error, ErrorCode, Transaction};

const ADD: &str = table!(meta, insert);

const SET: &str = table!(meta, update);

const ALL: &str = table!(meta, all);

const CLEAR_TERMS: &str = "DELETE FROM terms";

const ADD_TERMS: &str = table!(terms, insert);

const ALL_TERMS: &str = table!(terms, all);

/// Adds the row of a book without closed periods, where the table has none. The transaction stays open, and nothing is
/// committed.
///
/// # Errors
///
/// That of the statement which failed.
pub fn add_first_meta<S: Alter>(tx: &mut Transaction<'_, S>, day: Day) -> Result<(), Error>
    ensures same_reference { tx.new.conn.ghost_name ≡ tx.old.conn.ghost_name }
    ensures added { OnOk result (HasCleanDisk (state S.Store tx.new.conn.now) → (now : Content) → now.meta ≡ None → Keeps form now (state S.Store tx.old.conn.now).now → KeepsSound form (record now { meta = Some (record { day = day; closed = 0 }) }) (state S.Store tx.new.conn.now).now) }
    ensures survives { Survives (state S.Store tx.old.conn.now) (state S.Store tx.new.conn.now) (λ _. ⊥) }
{
    let cells = Meta { day, closed: 0 }.cells();
    tx.execute(ADD, &values_of(&cells)[..cells.len()])?;
    Ok(())
}

/// Writes the business day and how many periods are closed: into the row of the table, or as its first row.
///
/// # Errors
///
/// `ErrorCode::TooBig` for a number of periods that no integer of a column has, and else that of the statement which
/// failed.
pub fn put_meta<S: Alter>(
    conn: &mut Connection<S>,
    is_there: bool,
    day: Day,
    closed: usize,
) -> Result<(), Error>
    ensures ok { OnOk result (Changes S.Store conn.old conn.new (λ now. is_some now.meta ≡ is_there) (λ now. record now { meta = Some (record { day = day; closed = closed }) })) }
    ensures err { OnErr result (GivesUp S.Store conn.old conn.new) }
{
    if closed > i64::MAX as usize {
        return Err(Error::SqliteFailure(ErrorCode::TooBig));
    }
    let text = if is_there { SET } else { ADD };
    run_entry(conn, text, &Meta { day, closed })?;
    Ok(())
}

/// The query for the rows of the table, of which it has one at most unless another program wrote it.
pub fn meta_query() -> &'static str
    ensures { ShowsTable meta_part result.now }
{
    ALL
}

/// Writes the terms of the market, or that there are none.
///
/// # Errors
///
/// That of the statement which failed.
pub fn put_terms<S: Alter>(conn: &mut Connection<S>, terms: Option<Terms>) -> Result<(), Error>
    ensures ok { OnOk result (Changes S.Store conn.old conn.new (λ now. ⊤) (λ now. record now { terms = terms })) }
    ensures err { OnErr result (GivesUp S.Store conn.old conn.new) }
{
    conn.execute(CLEAR_TERMS, &[])?;
    let Some(terms) = terms else {
        return Ok(());
    };
    run_entry(conn, ADD_TERMS, &terms)?;
    Ok(())
}

/// The query for the rows of the table, of which it has one at most unless another program wrote it.
pub fn terms_query() -> &'static str
    ensures { ShowsTable terms_part result.now }
{
    ALL_TERMS
}
