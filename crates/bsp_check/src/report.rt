//! A report, and writing it.

ghost use Rattle.std.specs.Prelude.{◌≡◌, true, Err};
ghost use Rattle.bsp_check.specs.Streams.{IsSent};

use crate::fault::Fault;
use crate::verdict::Verdict;
use bsp_streams::{Noted, send};
use std::io::Write;

/// A report, and what it says of its input.
#[derive(Drop)]
pub(crate) struct Report {
    pub(crate) verdict: Verdict,
    pub(crate) text: Vec<u8>,
}

/// Writes a report and answers its verdict.
pub(crate) fn write_report<W: Write>(
    writer: &mut Noted<W>,
    report: &Report,
) -> Result<Verdict, Fault>
    ensures sent { IsSent report.now.verdict report.now.text.items (W.contents writer.old.inner) (W.contents writer.new.inner) result }
    ensures cause { result ≡ Err Fault.Write → writer.new.failed ≡ true }
{
    if send(writer, &report.text).is_err() || writer.flush().is_err() {
        return Err(Fault::Write);
    }
    Ok(report.verdict)
}
