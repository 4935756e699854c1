//! The version that a store has in `meta`.

ghost use Rattle.std.specs.Prelude.{◌≡◌, [], List, IfSome};
ghost use Rattle.bsp_store_base.specs.Sqlite.{HasCleanDisk, Row, Shown, state};
ghost use Rattle.bsp_store_load.specs.Kept.{Spares};
ghost use Rattle.bsp_store_open.specs.Opening.{ShowsNumber, is_known, version_text};

use bsp_store_load::VERSION;
use sqlite::{Alter, Connection, Row};

/// The query for the version, which may be asked of any tables.
pub(crate) const VERSION_TEXT: &str = "SELECT id, version FROM meta";

/// Whether a version is one from the first to that of this program, so that its tables are known.
pub(crate) fn is_known(version: i64) -> bool
    ensures { result ≡ is_known version }
{
    1 <= version && version <= VERSION
}

/// The version in the first row of `meta`.
fn first_version(rows: &[Row]) -> Option<i64>
    ensures { IfSome result (ShowsNumber rows.now) }
{
    let row = rows.first()?;
    row.get(1).ok()
}

/// The version in the first row of `meta`, whatever tables a store has, as far as it can be read. It writes nothing.
pub fn version_in<S: Alter>(conn: &mut Connection<S>) -> Option<i64>
    ensures number { HasCleanDisk (state S.Store conn.new) → IfSome result (λ number. (rows : List Row) × Shown version_text [] (state S.Store conn.old) (state S.Store conn.new) rows × ShowsNumber rows number) }
    ensures spares { Spares S.Store conn.old conn.new }
{
    let rows = conn.query_all(VERSION_TEXT, &[]).ok()?;
    first_version(&rows)
}
