//! The audit of a book, which changes nothing in its store.

ghost use Rattle.std.specs.Prelude.{◌≡◌, Err, IfErr, IfOk, MatchResult, None, true};
ghost use Rattle.bsp_rows.specs.Rows.{Rows};
ghost use Rattle.bsp_book.specs.Listed.{Holds as ListHolds};
ghost use Rattle.bsp_store_base.specs.Base.{our_schema, Spares};
ghost use Rattle.bsp_store_base.specs.Sqlite.{Held};
ghost use Rattle.bsp_store_open.specs.Faults.{is_refusal};
ghost use Rattle.bsp_store_open.specs.Opening.{IsOrdered, LeavesCommitted, Reopens};
ghost use Rattle.bsp_store.specs.Files.{IsJustOpened};
ghost use Rattle.bsp_store.specs.Auditing.{HasNone, IsAuditAt, IsAuditOf, IsAudited, IsFound, IsPlanOf, IsSummaryOf, WasRefused, fault_in};

use crate::missing_log::{CloseAudited, MissingLog};
use crate::on_files::{OnFiles, on_files};
use bsp_book::ListBook;
use bsp_rows::{Day, Plan};
use bsp_store_open::{
    Damage, OpenFault, again, find_damage, is_ours, kept_list, old_refusal, old_version, refusal,
    version_in,
};
use sqlite::{Alter, Connection, Start};
use std::alloc::Global;
use std::fmt;

/// What a sound book has.
#[derive(Clone, Copy, PartialEq, Eq)]
pub struct Summary {
    /// The business day.
    pub day: Day,
    /// How many agents are registered.
    pub agents: usize,
    /// How many transactions were accepted.
    pub items: usize,
    /// How many memos were issued.
    pub memos: usize,
    /// How many periods are closed.
    pub periods: usize,
}

impl fmt::Display for Summary {
    fn fmt<W: fmt::Write>(&self, f: &mut fmt::Formatter<W>) -> fmt::Result {
        let (day, agents, items) = (self.day, self.agents, self.items);
        let (memos, periods) = (self.memos, self.periods);
        write!(f, "version 3 day {day} agents {agents} items {items} ")?;
        write!(f, "memos {memos} periods {periods}")
    }
}

/// Why an audit passes no book.
#[derive(Drop)]
pub enum AuditFault {
    /// The tables are not those of a book, or have rows that are not sound. (B02.) With what is at fault, as far as it is
    /// found.
    Damaged(Option<Damage>),
    /// The tables have a version that is none of 1 to 3. (B04.) With its number, as far as it can be read.
    OtherVersion(Option<i64>),
    /// The store is not opened, or fails, for another cause. (B01, B03.)
    Failed(OpenFault),
}

/// The numbers of the rows of a book in memory.
fn summary_of(list: &ListBook) -> Summary
    ensures { (rows : Rows) → ListHolds list.now rows None → IsSummaryOf rows result }
{
    let tables = list.tables();
    let plan = tables.plan();
    Summary {
        day: plan.day(),
        agents: tables.agent_tokens().map().len(),
        items: tables.item_table().map().len(),
        memos: tables.memo_table().map().len(),
        periods: plan.closed_count(),
    }
}

/// What is answered of the rows of a book.
trait Finding: Sized {
    ghost use Rattle.std.specs.Prelude.{◌≡◌, MatchResult, None};
    ghost use Rattle.bsp_rows.specs.Rows.{Rows};
    ghost use Rattle.bsp_book.specs.Listed.{Holds as ListHolds};
    ghost use Rattle.bsp_store_open.specs.declared.fault.OpenFault.TheVariants.{NoRoom};

    ghost is_of: { Rows → Self → Type 0 };

    fn of(list: &ListBook) -> Result<Self, OpenFault>
        ensures { MatchResult result (λ found. (rows : Rows) → ListHolds list.now rows None → is_of rows found) (λ fault. fault ≡ NoRoom) };
}

impl Finding for Summary {
    ghost use Rattle.bsp_store.specs.Auditing.{IsSummaryOf};

    ghost is_of = { IsSummaryOf };

    fn of(list: &ListBook) -> Result<Summary, OpenFault> {
        Ok(summary_of(list))
    }
}

impl Finding for Plan {
    ghost use Rattle.bsp_store.specs.Auditing.{IsPlanOf};

    ghost is_of = { IsPlanOf };

    fn of(list: &ListBook) -> Result<Plan, OpenFault> {
        match list.tables().plan().copied() {
            Ok(plan) => Ok(plan),
            Err(_) => Err(OpenFault::NoRoom),
        }
    }
}

/// What is answered of a book that was read, if it was.
fn found_in<X: Finding>(read: Result<ListBook, OpenFault>) -> Result<X, OpenFault>
    ensures { MatchResult read
        (λ list. MatchResult result (λ found. (rows : Rows) → ListHolds list rows None → X.is_of rows found) (λ fault. fault ≡ OpenFault.NoRoom))
        (λ fault. result ≡ Err fault) }
{
    match read {
        Ok(list) => X::of(&list),
        Err(fault) => Err(fault),
    }
}

/// Why tables that are not those of a book of this version are refused.
fn other_refusal<S: Alter>(conn: &mut Connection<S>) -> OpenFault
    requires { conn.old.schema ≡ our_schema → ⊥ }
    ensures refused { is_refusal result ≡ true → HasNone S.Store result conn.old conn.new }
    ensures spares { Spares S.Store conn.old conn.new }
{
    match old_version(conn.schema()) {
        Some(version) => old_refusal(conn, version),
        None => refusal(conn),
    }
}

/// Reads all rows of a store, tests that they are a sound book's, and answers what is found of them.
fn found<S: Alter, X: Finding>(alloc: Global, conn: &mut Connection<S>) -> Result<X, OpenFault>
    ensures ok { IfOk result (λ found. IsOrdered S.Store conn.old → IsFound X.is_of S.Store conn.old conn.new found) }
    ensures refused { IfErr result (λ fault. is_refusal fault ≡ true → HasNone S.Store fault conn.old conn.new) }
    ensures spares { Spares S.Store conn.old conn.new }
{
    if !is_ours(conn.schema()) {
        return Err(other_refusal(conn));
    }
    let read = kept_list(alloc, conn);
    found_in(read)
}

/// What is at fault where a store is refused.
fn explained<S: Alter>(alloc: Global, conn: &mut Connection<S>, fault: OpenFault) -> AuditFault
    ensures same { fault_in result ≡ fault }
    ensures spares { Spares S.Store conn.old conn.new }
{
    match fault {
        OpenFault::Damaged => AuditFault::Damaged(find_damage(alloc, conn).ok()),
        OpenFault::OtherVersion => AuditFault::OtherVersion(version_in(conn)),
        OpenFault::NoRoom | OpenFault::Failed(_) => AuditFault::Failed(fault),
    }
}

/// The audit of a connection that was just opened.
fn audited<S: Alter, X: Finding>(alloc: Global, conn: &mut Connection<S>) -> Result<X, AuditFault>
    ensures ok { IfOk result (λ found. IsOrdered S.Store conn.old → IsFound X.is_of S.Store conn.old conn.new found) }
    ensures refused { IfErr result (λ e. is_refusal (fault_in e) ≡ true → HasNone S.Store (fault_in e) conn.old conn.new) }
    ensures spares { Spares S.Store conn.old conn.new }
{
    match found(alloc, conn) {
        Ok(found) => Ok(found),
        Err(fault) => Err(explained(alloc, conn, fault)),
    }
}

/// Audits a connection that was just opened, and gives its store back, with what is found of its rows.
fn found_once<S: Alter + Drop, X: Finding>(
    alloc: Global,
    mut conn: Connection<S>,
) -> (Result<X, AuditFault>, S)
    ensures ok { (before : Held S) → Reopens S.Store before conn → IfOk result.0 (IsAudited X.is_of S.Store before result.1) }
    ensures refused { (before : Held S) → Reopens S.Store before conn → IfErr result.0 (λ e. is_refusal (fault_in e) ≡ true → WasRefused S.Store (fault_in e) before result.1) }
    ensures left { (before : Held S) → Reopens S.Store before conn → LeavesCommitted S.Store before result.1 }
{
    let found = audited(alloc, &mut conn);
    (found, conn.into_store())
}

/// Opens a store again, audits it and gives it back, with what is found of its rows.
fn found_again<S: Alter + Drop, X: Finding>(
    alloc: Global,
    conn: Connection<S>,
) -> (Result<X, AuditFault>, S)
    ensures ok { IfOk result.0 (IsAudited X.is_of S.Store conn result.1) }
    ensures refused { IfErr result.0 (λ e. is_refusal (fault_in e) ≡ true → WasRefused S.Store (fault_in e) conn result.1) }
    ensures left { LeavesCommitted S.Store conn result.1 }
{
    match again(alloc, conn) {
        Ok(conn) => found_once(alloc, conn),
        Err((fault, store)) => (Err(AuditFault::Failed(fault)), store),
    }
}

/// Audits the book that a store keeps: the rows that the tables have are sound, and their numbers are answered. The store
/// comes back. A stop leaves in it what was committed, or what it left before.
///
/// # Errors
///
/// `OtherVersion`, where the tables and the number in `meta` are those of version 1 or 2, or the number is none of 1 to 3.
/// `Damaged`, where the tables are not those of the version that `meta` has, a row is no row of a book, or the rows are not
/// sound. `Failed`, where an allocation is refused or the store fails.
pub fn audit_store<S: Alter + Drop>(
    alloc: Global,
    conn: Connection<S>,
) -> (Result<Summary, AuditFault>, S)
    ensures ok { IfOk result.0 (IsAudited IsSummaryOf S.Store conn result.1) }
    ensures refused { IfErr result.0 (λ e. is_refusal (fault_in e) ≡ true → WasRefused S.Store (fault_in e) conn result.1) }
    ensures left { LeavesCommitted S.Store conn result.1 }
{
    found_again(alloc, conn)
}

/// Audits the book of a connection that was just opened, and takes away the log that its opening made, while the files are
/// still locked.
fn audited_alone<S: Alter + CloseAudited + Drop, X: Finding>(
    rt: &HostRuntime,
    conn: Connection<S>,
    log: MissingLog,
) -> Result<X, AuditFault>
    requires { IsJustOpened S.Store conn }
    ensures { IsAuditOf X.is_of S.Store conn result }
{
    let (found, store) = found_once(rt.alloc(), conn);
    store.close_audited(rt, log);
    found
}

/// The audit of a book in files, whose log is taken away if their opening made it.
#[derive(Drop)]
struct Audit {
    log: MissingLog,
}

impl<X: Finding> OnFiles<Result<X, AuditFault>> for Audit {
    ghost use Rattle.std.specs.Prelude.{◌≡◌, IsErrAnd};
    ghost use Rattle.bsp_store.specs.Auditing.{IsAuditOf, fault_in};

    ghost is_found = { λ S g conn found. IsAuditOf X.is_of g conn found };

    ghost is_failed = { λ fault found. IsErrAnd found (λ e. fault_in e ≡ fault) };

    fn found<S: Alter + CloseAudited + Drop, L: CloseAudited + Drop>(
        self,
        rt: &HostRuntime,
        opened: Result<Connection<S>, (OpenFault, Option<L>)>,
    ) -> Result<X, AuditFault> {
        match opened {
            Ok(conn) => audited_alone(rt, conn, self.log),
            Err((fault, left)) => {
                if let Some(left) = left {
                    left.close_audited(rt, self.log);
                }
                Err(AuditFault::Failed(fault))
            }
        }
    }
}

/// Audits the book in the file at a path, and answers what is found of its rows.
fn found_at<T: Start, X: Finding>(rt: &HostRuntime, path: &str, start: T) -> Result<X, AuditFault>
    ensures { IsAuditAt T.Start X.is_of result }
{
    let log = match MissingLog::of(rt, path) {
        Ok(log) => log,
        Err(fault) => return Err(AuditFault::Failed(fault)),
    };
    on_files(rt, path, start, Audit { log })
}

/// Audits the book in the file at a path, with its log beside it. It changes nothing in them, and leaves no log where there
/// was none. A file that is not there is not made; an empty one is made a database without tables.
///
/// # Errors
///
/// As those of [`audit_store`], which does the same with a store: after each of them a stop leaves what it left before. A
/// file that is not opened is `Failed`. No clause ties what the files hold to the path.
pub fn audit_at<T: Start>(rt: &HostRuntime, path: &str, start: T) -> Result<Summary, AuditFault>
    ensures audit { IsAuditAt T.Start IsSummaryOf result }
{
    found_at(rt, path, start)
}

/// The plan of the book in the file at a path, which is audited as by [`audit_at`].
///
/// # Errors
///
/// As those of [`audit_at`].
pub fn plan_at<T: Start>(rt: &HostRuntime, path: &str, start: T) -> Result<Plan, AuditFault>
    ensures audit { IsAuditAt T.Start IsPlanOf result }
{
    found_at(rt, path, start)
}
