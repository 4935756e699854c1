//! Judging the lines of an input while it is read, whatever judges a line.

ghost use Rattle.std.specs.Prelude.{◌≡◌, ◌<◌, ◌≤◌, ◌++◌, [], ◌∷◌, ℕ, List, true, false, length, Err, IfOk, IfErr, IfSome, IfNone};
ghost use Rattle.std.specs.Io.KnownBytes.{IsAtEnd, Consumes};
ghost use Rattle.bsp_fields.specs.Columns.{is_wide};
ghost use Rattle.bsp_fields.specs.Lines.{lines};
ghost use Rattle.bsp_explain.specs.Lines.{IsLine};
ghost use Rattle.bsp_check.specs.declared.verdict.Verdict.{Verdict};
ghost use Rattle.bsp_check.specs.Inputs.{IsReportOn, IsUnread};
ghost use Rattle.bsp_check.specs.Judging.{IsAfterFew, HasTakenMore, Explains, IsJudged};

use crate::fault::Fault;
use crate::refusing::refuse;
use crate::report::Report;
use crate::taking::take_all;
use crate::window::Window;
use bsp_fields::NoRoom;
use bsp_streams::Noted;
use std::alloc::Global;
use std::io::Read;

/// What judges the lines of an input, one after another.
pub(crate) trait Judge {
    /// Why a line is not allowed.
    type Fault: Copy;
    /// What is said of lines one of which is not allowed.
    type Refusal: Copy;

    // These lines were taken, and none is at fault.
    ghost HasTaken: { Self → List (List ℕ) → Type 0 };

    // The line is not allowed after those that were taken, for that reason.
    ghost IsAtFault: { Self → List ℕ → Self.Fault → Type 0 };

    // What is said of the lines of a text that has a fault.
    ghost IsRefusal: { List (List ℕ) → Self.Refusal → Type 0 };

    // The report on these bytes, with its exit status.
    ghost IsReport: { List ℕ → ℕ → List ℕ → Type 0 };

    // What a verdict says of these bytes.
    ghost IsExplained: { List ℕ → Verdict → Type 0 };

    /// Takes one more line of a record's width, if those before allow it. Answers why they do not; then nothing is taken.
    ///
    /// # Errors
    ///
    /// `NoRoom` where an allocation was refused, and for no other cause.
    fn take(&mut self, line: &[u8]) -> Result<Option<Self::Fault>, NoRoom>
        requires wide { is_wide line.now ≡ true }
        requires long { length line.now ≡ 136 }
        requires few { IsAfterFew HasTaken self.old }
        ensures taken { IfOk result (λ found. IfNone found (HasTakenMore HasTaken (line.now ∷ []) self.old self.new)) }
        ensures refused { IfOk result (λ found. IfSome found (λ fault. IsAtFault self.old line.now fault)) }
        ensures same { IfOk result (λ found. IfSome found (λ fault. self.new ≡ self.old)) };

    /// Why a line that has not a record's width is not allowed.
    fn no_record(&self) -> Self::Fault
        ensures { (line : List ℕ) → is_wide line ≡ false → IsAtFault self.now line result };

    /// Explains the line with which a text begins, where it is at fault. The end of the line is in the text, or the input
    /// ends with the text.
    fn explain_line(&self, fault: Self::Fault, text: &[u8]) -> Self::Refusal
        requires some { 0 < length text.now }
        requires few { IsAfterFew HasTaken self.now }
        ensures { (line : List ℕ) → IsLine 0 (lines text.now) line → Explains HasTaken IsAtFault IsRefusal self.now fault result line };

    /// Explains a line of so many characters that is at fault. These are the first of them.
    fn explain_long(&self, fault: Self::Fault, head: &[u8], width: usize) -> Self::Refusal
        requires long { 136 < width }
        requires head { 136 < length head.now }
        requires few { IsAfterFew HasTaken self.now }
        ensures { (more : List ℕ) → length (head.now ++ more) ≡ width → Explains HasTaken IsAtFault IsRefusal self.now fault result (head.now ++ more) };

    /// The report on an input all of whose lines were taken.
    ///
    /// # Errors
    ///
    /// `NoRoom` where an allocation was refused.
    fn end_report(self, alloc: Global) -> Result<Report, NoRoom>
        requires few { IsAfterFew HasTaken self }
        ensures { (bytes : List ℕ) → HasTaken self (lines bytes) → IfOk result (IsReportOn IsReport IsExplained bytes) };

    /// The report on an input with a line that is not allowed.
    ///
    /// # Errors
    ///
    /// `NoRoom` where an allocation was refused.
    fn refusal_report(alloc: Global, refusal: Self::Refusal) -> Result<Report, NoRoom>
        ensures { (bytes : List ℕ) → IsRefusal (lines bytes) refusal → IfOk result (IsReportOn IsReport IsExplained bytes) };
}

/// Judges the lines of an input of at most `limit` bytes. Of a longer one it takes one byte more. Answers what is said of
/// the first line that is not allowed, or `None` where all its lines were taken.
pub(crate) fn judge_input<R: Read, J: Judge>(
    alloc: Global,
    reader: &mut Noted<R>,
    limit: usize,
    judge: &mut J,
) -> Result<Option<J::Refusal>, Fault>
    requires limit { limit < usize.MAX }
    requires none { J.HasTaken judge.old [] }
    ensures answer { IfOk result (λ answer. (bytes : List ℕ) × Consumes (R.remaining reader.old.inner) (R.remaining reader.new.inner) bytes × IsAtEnd (R.remaining reader.new.inner) × (length bytes ≤ limit) × IsJudged J.HasTaken J.IsRefusal judge.new (lines bytes) answer) }
    ensures stopped { IfErr result (λ fault. IsUnread limit fault (R.remaining reader.old.inner) (R.remaining reader.new.inner)) }
    ensures cause { result ≡ Err Fault.Read → reader.new.failed ≡ true }
{
    let Ok(mut window) = Window::new(alloc, limit + 1) else {
        return Err(Fault::Memory);
    };
    let taken = match take_all(reader, &mut window, judge) {
        Ok(taken) => taken,
        Err(fault) => return Err(fault),
    };
    let Some(fault) = taken.fault else {
        return Ok(None);
    };
    match refuse(reader, &mut window, judge, taken.kept, fault) {
        Ok(refusal) => Ok(Some(refusal)),
        Err(fault) => Err(fault),
    }
}
