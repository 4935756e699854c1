//! The commands `check` and `hotcheck`: each reads an input to its end and writes the report on it.

ghost use Rattle.std.specs.Prelude.{◌≡◌, ◌≤◌, ◌<◌, ◌+◌, ◌⊎◌, ℕ, List, length, true, Err, IfErr, IfOk};
ghost use Rattle.std.specs.Io.KnownBytes.{Consumes, IsAtEnd, Appends};
ghost use Rattle.bsp_check.specs.Inputs.{IsInputReport, IsUnread};
ghost use Rattle.bsp_check.specs.Streams.{most, IsReported, IsCutShort};
ghost use Rattle.bsp_check.specs.RetReport.{IsRetReport};
ghost use Rattle.bsp_check.specs.HotReport.{IsHotReport};
ghost use Rattle.bsp_check.specs.Verdicts.{status_of, IsRetExplained, IsHotExplained};

use crate::fault::Fault;
use crate::listing::Listing;
use crate::report::{Report, write_report};
use crate::reporting::report_on;
use crate::ret_judging::RetJudge;
use crate::verdict::Verdict;
use bsp_hot_check::Standing;
use bsp_streams::Noted;
use std::alloc::Global;
use std::io::{Read, Write};

/// The most bytes that an input may have.
const MOST: usize = 1_073_741_824;

/// Reads a RET file of at most `limit` bytes, writes the report on it and answers its verdict.
///
/// # Errors
///
/// The [`Fault`] that kept a whole report from being written. Nothing was written but where it is
/// `Write`: then a first part of the report on an input that was read to its end.
pub fn check_within<R: Read, W: Write>(
    alloc: Global,
    reader: &mut Noted<R>,
    writer: &mut Noted<W>,
    limit: usize,
) -> Result<Verdict, Fault>
    requires { limit < usize.MAX }
    ensures answer { (bytes : List ℕ) × Consumes (R.remaining reader.old.inner) (R.remaining reader.new.inner) bytes × (length bytes ≤ limit + 1)
        × IsReported IsRetReport limit bytes (R.remaining reader.new.inner) (W.contents writer.old.inner) (W.contents writer.new.inner) result
        × IfOk result (IsRetExplained bytes) }
    ensures read_cause { result ≡ Err Fault.Read → reader.new.failed ≡ true }
    ensures write_cause { result ≡ Err Fault.Write → writer.new.failed ≡ true }
{
    match report_on(alloc, reader, limit, RetJudge::start(alloc)) {
        Ok(report) => write_report(writer, &report),
        Err(fault) => Err(fault),
    }
}

/// The report on an input of at most `limit` bytes as a HOT file, with its list where that is asked for.
fn hot_report<R: Read>(
    alloc: Global,
    reader: &mut Noted<R>,
    limit: usize,
    list: bool,
) -> Result<Report, Fault>
    requires { limit < usize.MAX }
    ensures report { IfOk result (IsInputReport (IsHotReport list) IsHotExplained limit (R.remaining reader.old.inner) (R.remaining reader.new.inner)) }
    ensures stopped { IfErr result (λ fault. IsUnread limit fault (R.remaining reader.old.inner) (R.remaining reader.new.inner)) }
    ensures cause { result ≡ Err Fault.Read → reader.new.failed ≡ true }
{
    if list {
        report_on(alloc, reader, limit, Listing::start(alloc))
    } else {
        report_on(alloc, reader, limit, Standing::start())
    }
}

/// Reads a HOT file of at most `limit` bytes, writes the report on it and answers its verdict. Where `list`
/// is set, the list of a file without fault is before its report.
///
/// # Errors
///
/// As of [`check_within`].
pub fn hotcheck_within<R: Read, W: Write>(
    alloc: Global,
    reader: &mut Noted<R>,
    writer: &mut Noted<W>,
    limit: usize,
    list: bool,
) -> Result<Verdict, Fault>
    requires { limit < usize.MAX }
    ensures answer { (bytes : List ℕ) × Consumes (R.remaining reader.old.inner) (R.remaining reader.new.inner) bytes × (length bytes ≤ limit + 1)
        × IsReported (IsHotReport list) limit bytes (R.remaining reader.new.inner) (W.contents writer.old.inner) (W.contents writer.new.inner) result
        × IfOk result (IsHotExplained bytes) }
    ensures read_cause { result ≡ Err Fault.Read → reader.new.failed ≡ true }
    ensures write_cause { result ≡ Err Fault.Write → writer.new.failed ≡ true }
{
    match hot_report(alloc, reader, limit, list) {
        Ok(report) => write_report(writer, &report),
        Err(fault) => Err(fault),
    }
}

/// Reads a RET file of at most 1,073,741,824 bytes, writes the report on it and answers its
/// verdict. The exit status of the answer is 0 for a file, 1 for a fault. It is 3 where a read or a
/// write failed, the input is longer, or an allocation was refused.
///
/// # Errors
///
/// As of [`check_within`].
pub fn check<R: Read, W: Write>(
    alloc: Global,
    reader: &mut Noted<R>,
    writer: &mut Noted<W>,
) -> Result<Verdict, Fault>
    ensures answer { (bytes : List ℕ) × Consumes (R.remaining reader.old.inner) (R.remaining reader.new.inner) bytes × (length bytes ≤ most + 1)
        × IsReported IsRetReport most bytes (R.remaining reader.new.inner) (W.contents writer.old.inner) (W.contents writer.new.inner) result
        × IfOk result (IsRetExplained bytes) }
    ensures reports { (status_of result ≡ 0) ⊎ (status_of result ≡ 1) → (bytes : List ℕ) × Consumes (R.remaining reader.old.inner) (R.remaining reader.new.inner) bytes
        × IsAtEnd (R.remaining reader.new.inner) × (length bytes ≤ most)
        × (text : List ℕ) × IsRetReport bytes (status_of result) text × Appends (W.contents writer.old.inner) (W.contents writer.new.inner) text }
    ensures refused { status_of result ≡ 3 → (bytes : List ℕ) × Consumes (R.remaining reader.old.inner) (R.remaining reader.new.inner) bytes
        × IsCutShort IsRetReport most bytes (R.remaining reader.new.inner) (W.contents writer.old.inner) (W.contents writer.new.inner) }
    ensures limit { (bytes : List ℕ) × Consumes (R.remaining reader.old.inner) (R.remaining reader.new.inner) bytes × (length bytes ≤ most + 1) }
    ensures statuses { (status_of result ≡ 0) ⊎ ((status_of result ≡ 1) ⊎ (status_of result ≡ 3)) }
    ensures read_cause { result ≡ Err Fault.Read → reader.new.failed ≡ true }
    ensures write_cause { result ≡ Err Fault.Write → writer.new.failed ≡ true }
{
    check_within(alloc, reader, writer, MOST)
}

/// Reads a HOT file of at most 1,073,741,824 bytes, writes the report on it and answers its
/// verdict. Where `list` is set, the list of a file without fault is before its report. The exit status of the answer is 0 for a file, 1 for a fault. It is 3 where a read or a
/// write failed, the input is longer, or an allocation was refused.
///
/// # Errors
///
/// As of [`check_within`].
pub fn hotcheck<R: Read, W: Write>(
    alloc: Global,
    reader: &mut Noted<R>,
    writer: &mut Noted<W>,
    list: bool,
) -> Result<Verdict, Fault>
    ensures answer { (bytes : List ℕ) × Consumes (R.remaining reader.old.inner) (R.remaining reader.new.inner) bytes × (length bytes ≤ most + 1)
        × IsReported (IsHotReport list) most bytes (R.remaining reader.new.inner) (W.contents writer.old.inner) (W.contents writer.new.inner) result
        × IfOk result (IsHotExplained bytes) }
    ensures reports { (status_of result ≡ 0) ⊎ (status_of result ≡ 1) → (bytes : List ℕ) × Consumes (R.remaining reader.old.inner) (R.remaining reader.new.inner) bytes
        × IsAtEnd (R.remaining reader.new.inner) × (length bytes ≤ most)
        × (text : List ℕ) × IsHotReport list bytes (status_of result) text × Appends (W.contents writer.old.inner) (W.contents writer.new.inner) text }
    ensures refused { status_of result ≡ 3 → (bytes : List ℕ) × Consumes (R.remaining reader.old.inner) (R.remaining reader.new.inner) bytes
        × IsCutShort (IsHotReport list) most bytes (R.remaining reader.new.inner) (W.contents writer.old.inner) (W.contents writer.new.inner) }
    ensures limit { (bytes : List ℕ) × Consumes (R.remaining reader.old.inner) (R.remaining reader.new.inner) bytes × (length bytes ≤ most + 1) }
    ensures statuses { (status_of result ≡ 0) ⊎ ((status_of result ≡ 1) ⊎ (status_of result ≡ 3)) }
    ensures read_cause { result ≡ Err Fault.Read → reader.new.failed ≡ true }
    ensures write_cause { result ≡ Err Fault.Write → writer.new.failed ≡ true }
{
    hotcheck_within(alloc, reader, writer, MOST, list)
}
