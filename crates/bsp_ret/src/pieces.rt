//! Lines that are judged as their bytes come.

ghost use Rattle.std.specs.Prelude.{◌≡◌, ◌≤◌, ◌<◌, ◌+◌, ◌-◌, ◌^◌, List, length, drop, take, false, true, Ok, Err, OnErr, OnOk, IfOk, IfErr, IfSome, IfNone, MatchResult};
ghost use Rattle.bsp_fields.specs.Columns.{is_wide};
ghost use Rattle.bsp_fields.specs.Lines.{lines, has_end, BeginsWithLine};
ghost use Rattle.bsp_ret.specs.Said.{record_in};
ghost use Rattle.bsp_ret.specs.Table.{row_fault};
ghost use Rattle.bsp_ret.specs.Standings.{FitsIn, standing_behind};
ghost use Rattle.bsp_ret.specs.Reading.{read_all};
ghost use Rattle.bsp_ret.specs.Notes.{IsNoted, IsNotedTo, IsFileNoted};
ghost use Rattle.bsp_ret.specs.Pieces.{IsStop};

use crate::model::{FaultCode, Record, RetFault, Standing};
use crate::notes::{Notes, Place, Span};
use bsp_fields::{ended_line, first_record};

/// Why lines are not judged on.
#[derive(Clone, Copy)]
pub(crate) enum Stop {
    /// An allocation was refused.
    Memory,
    /// A line is at fault.
    Fault(RetFault),
}

/// The first line that has an end, the bytes behind that end, and whether it is known to be a record. A whole record is
/// tried first: it has 136 characters, so that more bytes than these have its end.
#[inline(always)]
fn next_line(bytes: &[u8]) -> Option<(&[u8], &[u8], bool)>
    ensures some { IfSome result (λ x. BeginsWithLine bytes.now x.0.now x.1.now) }
    ensures wide { IfSome result (λ x. x.2 ≡ true → is_wide x.0.now ≡ true) }
    ensures long { IfSome result (λ x. x.2 ≡ true → length x.0.now ≡ 136) }
    ensures none { IfNone result (has_end bytes.now ≡ false) }
{
    if bytes.len() > 136 {
        if let Some((line, after)) = first_record(bytes) {
            return Some((line, after, true));
        }
    }
    match ended_line(bytes) {
        Some((line, after)) => Some((line, after, false)),
        None => None,
    }
}

/// Takes the next line, whose characters are tested unless it is known to be a record.
#[inline(always)]
fn step(at: &mut Standing, line: &[u8], is_record: bool) -> Result<Record, FaultCode>
    requires fits { FitsIn at.old (2 ^ 63 - 1) }
    requires wide { is_record ≡ true → is_wide line.now ≡ true }
    requires long { is_record ≡ true → length line.now ≡ 136 }
    ensures row { OnOk result (row_fault at.old line.now ≡ Ok tt) }
    ensures says { IfOk result (λ said. said ≡ record_in line.now) }
    ensures state { OnOk result (at.new ≡ standing_behind at.old line.now) }
    ensures fits { OnOk result (FitsIn at.new (at.old.records + 1)) }
    ensures fault { IfErr result (λ code. row_fault at.old line.now ≡ Err code) }
    ensures same { OnErr result (at.new ≡ at.old) }
{
    if is_record {
        at.step_record(line)
    } else {
        at.step(line)
    }
}

/// Judges and notes the lines that have an end, and whether a line begins behind a trailer.
pub(crate) fn judge_lines(
    notes: Notes,
    closed: &mut Vec<Place>,
    bytes: &[u8],
) -> Result<Notes, Stop>
    requires { IsNoted notes closed.old.items bytes.now }
    ensures ok { IfOk result (λ now. IsNotedTo now closed.new.items bytes.now) }
    ensures kept { take (length closed.old.items) closed.new.items ≡ closed.old.items }
    ensures stop { IfErr result (λ stop. IsStop bytes.now stop) }
{
    let mut now = notes;
    while let Some((line, after, is_record)) = next_line(&bytes[now.judged..]) {
        let next = match step(&mut now.at, line, is_record) {
            Ok(next) => next,
            Err(code) => return Err(Stop::Fault(now.at.fault(code))),
        };
        let Ok(()) = now.add(closed, &next, bytes, line, after) else {
            return Err(Stop::Memory);
        };
    }
    if now.at.last.has_ended() && now.judged < bytes.len() {
        return Err(Stop::Fault(now.at.fault(FaultCode::F09)));
    }
    Ok(now)
}

/// Judges and notes the bytes that are left when no more come.
pub(crate) fn judge_rest(notes: Notes, bytes: &[u8]) -> Result<Notes, RetFault>
    requires fits { FitsIn notes.at notes.judged }
    requires within { notes.judged ≤ length bytes.now }
    ensures ok { (closed : List Place) → IsNotedTo notes closed bytes.now → IfOk result (λ now. IsFileNoted now closed bytes.now) }
    ensures fault { (closed : List Place) → IsNotedTo notes closed bytes.now → IfErr result (λ fault. read_all (lines bytes.now) ≡ Err fault) }
{
    let rest = &bytes[notes.judged..];
    if rest.is_empty() {
        return if notes.at.last.has_ended() {
            Ok(notes)
        } else {
            Err(notes.at.fault(FaultCode::F08))
        };
    }
    let mut at = notes.at;
    if let Err(code) = at.step(rest) {
        return Err(notes.at.fault(code));
    }
    if !at.last.has_ended() {
        return Err(at.fault(FaultCode::F08));
    }
    Ok(Notes {
        judged: bytes.len(),
        at,
        trailer: Span {
            from: notes.judged,
            to: bytes.len(),
        },
        ..notes
    })
}
