//! The number that the table `meta` of an earlier version has.

ghost use Rattle.std.specs.Prelude.{◌≡◌, true, IfErr, OnOk};
ghost use Rattle.bsp_store_base.specs.Sqlite.{HasCleanDisk, state};
ghost use Rattle.bsp_store_load.specs.Kept.{Spares};
ghost use Rattle.bsp_store_open.specs.Old.{old_number, old_schema};
ghost use Rattle.bsp_store_open.specs.declared.old_versions.OldVersion.{OldVersion};
ghost use Rattle.bsp_store_open.specs.Faults.{is_refusal};
ghost use Rattle.bsp_store_open.specs.Opening.{Reports};
ghost use Rattle.bsp_store_open.specs.Migrating.{HasNoOldBook, HasNumber, IsEarlier, IsNumbered};

use crate::fault::OpenFault;
use crate::old_versions::OldVersion;
use crate::version::is_known;
use bsp_store_columns::table;
use bsp_store_load::read_version;
use sqlite::{Alter, Connection, Row};

/// Refuses rows of `meta` that have another number than that of a version, or none. A known one is damage: the tables are
/// not its own.
fn expect_number(rows: &[Row], version: OldVersion) -> Result<(), OpenFault>
    ensures ok { OnOk result (HasNumber (old_number version) rows.now) }
    ensures refused { IfErr result (λ fault. ¬ HasNumber (old_number version) rows.now × Reports fault rows.now) }
{
    let Some(row) = rows.first() else {
        return Err(OpenFault::Damaged);
    };
    let Some(number) = read_version(row) else {
        return Err(OpenFault::Damaged);
    };
    if number == version.number() {
        return Ok(());
    }
    if is_known(number) {
        return Err(OpenFault::Damaged);
    }
    Err(OpenFault::OtherVersion)
}

/// Refuses tables of an earlier version whose `meta` has another number than that of the version, or none. The text
/// is that of every version.
///
/// # Errors
///
/// `OtherVersion` for a number that is not known, `Damaged` for none or that of another known version. Those of the store.
pub(crate) fn expect_numbered<S: Alter>(
    conn: &mut Connection<S>,
    version: OldVersion,
) -> Result<(), OpenFault>
    requires { conn.old.schema ≡ old_schema version }
    ensures numbered { OnOk result (IsNumbered S.Store version conn.old conn.new) }
    ensures refused { IfErr result (λ fault. is_refusal fault ≡ true → HasNoOldBook S.Store version fault conn.old conn.new) }
    ensures spares { Spares S.Store conn.old conn.new }
{
    let rows = conn.query_all(table!(meta, all), &[])?;
    expect_number(&rows, version)
}

/// Why tables of an earlier version are no book of this one: their version is not this one, they are damaged, or the store
/// fails.
/// It reads the number, and writes nothing.
pub fn old_refusal<S: Alter>(conn: &mut Connection<S>, version: OldVersion) -> OpenFault
    requires { conn.old.schema ≡ old_schema version }
    ensures earlier { is_refusal result ≡ true → HasCleanDisk (state S.Store conn.new) → IsEarlier version result (state S.Store conn.old).now.trees }
    ensures spares { Spares S.Store conn.old conn.new }
{
    match expect_numbered(conn, version) {
        Ok(()) => OpenFault::OtherVersion,
        Err(fault) => fault,
    }
}
