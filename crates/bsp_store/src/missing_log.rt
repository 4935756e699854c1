//! The log that an opening makes beside a file that has none, and that an audit takes away.

ghost use Rattle.std.specs.Prelude.{◌≡◌, ◌<◌, IfErr, IsTrue, length};
ghost use Rattle.sqlite.specs.declared.error.Error.{Error as StoreError};
ghost use Rattle.bsp_store_open.specs.Faults.{fault_for};
ghost use Rattle.bsp_store.specs.Files.{HasNoPage, OpensNone};

use bsp_store_open::OpenFault;
use sqlite::{Error, ErrorCode, FileStore, Leftover};
use sqlite_disk::{Disk, Files};
use std::{fs, io};

/// A log of fewer bytes has no page: the log has a header of 32 bytes, and a page in it one of 24.
const LEAST_LOG: usize = 56;

/// The name of the log that a file would have, where it has none.
#[derive(Drop)]
pub(crate) struct MissingLog(Option<String>);

/// The log of the file at a path, which is where a link leads, unless it is there.
fn missing(rt: &HostRuntime, path: &str) -> io::Result<Option<String>> {
    let file = fs::canonicalize(rt, path)?;
    let log = format!(in rt.alloc(); "{}-wal", file.as_str())?;
    if fs::exists(rt, log.as_str())? {
        return Ok(None);
    }
    Ok(Some(log))
}

/// Why a file is not opened whose log cannot be looked for.
fn fault_of(error: &io::Error) -> OpenFault
    ensures { (error : StoreError) × OpensNone error × (result ≡ fault_for error) }
{
    match error.kind() {
        io::ErrorKind::OutOfMemory => OpenFault::NoRoom,
        _ => OpenFault::Failed(Error::SqliteFailure(ErrorCode::CannotOpen)),
    }
}

impl MissingLog {
    /// That of the file at a path, before it is opened.
    ///
    /// # Errors
    ///
    /// `Failed`, where the file is not there. `NoRoom`, where an allocation is refused.
    pub(crate) fn of(rt: &HostRuntime, path: &str) -> Result<MissingLog, OpenFault>
        ensures { IfErr result (λ fault. (error : StoreError) × OpensNone error × (fault ≡ fault_for error)) }
    {
        match missing(rt, path) {
            Ok(log) => Ok(MissingLog(log)),
            Err(error) => Err(fault_of(&error)),
        }
    }

    /// Closes a file and its log, and takes the log away, if the opening made it and it has no page. The file is locked
    /// until then: what another program writes to its log would be lost.
    fn close<D: Disk + Drop>(self, rt: &HostRuntime, files: Files<D>) {
        let Files { log, db } = files;
        if let Some(path) = self.0
            && let Some(spent) = SpentLog::of(path, log)
        {
            spent.remove(rt);
        }
        drop(db);
    }
}

/// A log without any page, and its path.
#[derive(Drop)]
pub struct SpentLog<D: Disk> {
    path: String,
    log: D,
    ghost spent: { IsTrue (D.Disk.is_clean log) → length (D.Disk.seen log) < 56 },
}

impl<D: Disk + Drop> SpentLog<D> {
    /// The log at a path, if it has no page.
    fn of(path: String, mut log: D) -> Option<SpentLog<D>> {
        if !log.may_be_used() {
            return None;
        }
        match log.len() {
            Ok(len) if len < LEAST_LOG => Some(SpentLog { path, log }),
            _ => None,
        }
    }

    /// Takes the log away. A file without it has what it has with it.
    pub fn remove(self, rt: &HostRuntime)
        ensures nothing { HasNoPage D.Disk self.log }
    {
        let _ = fs::remove_file(rt, self.path.as_str());
    }
}

/// What is over a file and its log, and is closed after an audit.
pub(crate) trait CloseAudited: Sized {
    /// Closes the files, as [`MissingLog::close`] does.
    fn close_audited(self, rt: &HostRuntime, log: MissingLog);
}

impl<D: Disk + Drop> CloseAudited for FileStore<D> {
    fn close_audited(self, rt: &HostRuntime, log: MissingLog) {
        log.close(rt, self.close());
    }
}

impl<D: Disk + Drop> CloseAudited for Leftover<D> {
    fn close_audited(self, rt: &HostRuntime, log: MissingLog) {
        log.close(rt, self.into_files());
    }
}
