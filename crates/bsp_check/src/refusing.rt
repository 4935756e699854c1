//! Explaining the line of an input that is not allowed.

ghost use Rattle.std.specs.Prelude.{◌≡◌, ◌<◌, ◌≤◌, ◌+◌, ◌^◌, true, false, length, Err, IfOk, IfErr};
ghost use Rattle.std.specs.Io.KnownBytes.{IsAtEnd};
ghost use Rattle.bsp_ret.specs.Lines.{has_end};
ghost use Rattle.bsp_check.specs.Judging.{IsAfterFew, Explains, IsExplained, IsRefused};
ghost use Rattle.bsp_check.specs.Windows.{text_of, last_of, room, IsWindow, Stops};

use crate::fault::Fault;
use crate::judging::Judge;
use crate::long_line::{has_line, line_width};
use crate::window::Window;
use bsp_streams::Noted;
use std::io::Read;

/// Explains the line with which a window begins, and which is longer.
fn explain_longer<R: Read, J: Judge>(
    reader: &mut Noted<R>,
    window: &mut Window,
    judge: &J,
    fault: J::Fault,
) -> Result<J::Refusal, Fault>
    requires window { IsWindow window.old }
    requires goes_on { window.old.ended ≡ false }
    requires full { length (text_of window.old) ≡ room }
    requires unended { has_end (text_of window.old) ≡ false }
    requires few { length (text_of window.old) + window.old.left < 2 ^ 64 }
    requires judge { IsAfterFew J.HasTaken judge.now }
    ensures explained { IfOk result (λ refusal. IsExplained (Explains J.HasTaken J.IsAtFault J.IsRefusal judge.now fault refusal) window.old window.new (R.remaining reader.old.inner) (R.remaining reader.new.inner)) }
    ensures stopped { IfErr result (λ fault. Stops window.old.left fault (R.remaining reader.old.inner) (R.remaining reader.new.inner)) }
    ensures cause { result ≡ Err Fault.Read → reader.new.failed ≡ true }
{
    let mut head = [0u8; 1024];
    head.copy_from_slice(&window.text()[..1024]);
    match line_width(reader, window) {
        Ok(width) => Ok(judge.explain_long(fault, &head, width)),
        Err(fault) => Err(fault),
    }
}

/// Explains the line with which a window begins.
fn explain<R: Read, J: Judge>(
    reader: &mut Noted<R>,
    window: &mut Window,
    judge: &J,
    fault: J::Fault,
) -> Result<J::Refusal, Fault>
    requires window { IsWindow window.old }
    requires some { 0 < length (text_of window.old) }
    requires full { window.old.ended ≡ false → length (text_of window.old) ≡ room }
    requires end { window.old.ended ≡ true → IsAtEnd (R.remaining reader.old.inner) }
    requires few { length (text_of window.old) + window.old.left < 2 ^ 64 }
    requires judge { IsAfterFew J.HasTaken judge.now }
    ensures explained { IfOk result (λ refusal. IsExplained (Explains J.HasTaken J.IsAtFault J.IsRefusal judge.now fault refusal) window.old window.new (R.remaining reader.old.inner) (R.remaining reader.new.inner)) }
    ensures stopped { IfErr result (λ fault. Stops window.old.left fault (R.remaining reader.old.inner) (R.remaining reader.new.inner)) }
    ensures cause { result ≡ Err Fault.Read → reader.new.failed ≡ true }
{
    if has_line(window) {
        Ok(judge.explain_line(fault, window.text()))
    } else {
        explain_longer(reader, window, judge, fault)
    }
}

/// Explains the line with which the last bytes of a window begin, so many, and reads on to the end of the input.
pub(crate) fn refuse<R: Read, J: Judge>(
    reader: &mut Noted<R>,
    window: &mut Window,
    judge: &J,
    kept: usize,
    fault: J::Fault,
) -> Result<J::Refusal, Fault>
    requires window { IsWindow window.old }
    requires some { 0 < kept }
    requires within { kept ≤ window.old.filled }
    requires end { window.old.ended ≡ true → IsAtEnd (R.remaining reader.old.inner) }
    requires few { kept + window.old.left < 2 ^ 64 }
    requires judge { IsAfterFew J.HasTaken judge.now }
    ensures refused { IfOk result (λ refusal. IsRefused (Explains J.HasTaken J.IsAtFault J.IsRefusal judge.now fault refusal) (last_of kept (text_of window.old)) window.old window.new (R.remaining reader.old.inner) (R.remaining reader.new.inner)) }
    ensures stopped { IfErr result (λ fault. Stops window.old.left fault (R.remaining reader.old.inner) (R.remaining reader.new.inner)) }
    ensures cause { result ≡ Err Fault.Read → reader.new.failed ≡ true }
{
    match window.advance(reader, kept) {
        Ok(()) => {}
        Err(fault) => return Err(fault),
    }
    let refusal = match explain(reader, window, judge, fault) {
        Ok(refusal) => refusal,
        Err(fault) => return Err(fault),
    };
    match window.drain(reader) {
        Ok(()) => Ok(refusal),
        Err(fault) => Err(fault),
    }
}
