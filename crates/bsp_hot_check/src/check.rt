//! A HOT file, from its text to its totals.

ghost use Rattle.std.specs.Prelude.{◌≡◌, ◌<◌, ◌+◌, ◌^◌, ℕ, List, Ok, Some, IfOk, IfErr, IfSome, IfNone};
ghost use Rattle.bsp_fields.specs.Lines.{lines};
ghost use Rattle.bsp_hot_check.specs.Hot.{File, Hot, IsFirstFault, HotOrFault, totals_of_file};
ghost use Rattle.bsp_hot_check.specs.Standings.{start, IsSmall};
ghost use Rattle.bsp_hot_check.specs.Judging.{stands_after};
ghost use Rattle.bsp_hot_check.specs.Checked.{HasTotals};

use crate::model::{HotTotals, RecordFault, Standing};

impl Standing {
    /// The fault of the next record.
    fn next_fault(&self) -> RecordFault
        requires { self.now.records < 2 ^ 63 }
        ensures { result.number ≡ self.now.records + 1 }
    {
        RecordFault {
            number: self.records + 1,
        }
    }

    /// The totals of the file that lines in this state are, or `None` where its next record is missing.
    pub fn file_totals(&self) -> Option<HotTotals>
        requires room { self.now.records < 2 ^ 63 }
        requires small { IsSmall self.now }
        ensures found { (ls : List (List ℕ)) → stands_after start ls ≡ Some self.now → IfSome result (HasTotals ls) }
        ensures missing { (ls : List (List ℕ)) → stands_after start ls ≡ Some self.now → IfNone result (IsFirstFault ls (self.now.records + 1)) }
    {
        if self.place.is_ended() {
            Some(self.totals())
        } else {
            None
        }
    }
}

/// Judges a HOT file in one pass, without memory. It takes LF and CR LF, and a last line without
/// an end.
///
/// # Errors
///
/// The first record at fault, where there is one.
pub fn check_hot(bytes: &[u8]) -> Result<HotTotals, RecordFault>
    // What is found is a file, with its totals.
    ensures found { IfOk result (HasTotals (lines bytes.now)) }
    // A file is found.
    ensures only { (file : File) → Hot (lines bytes.now) file → result ≡ Ok (totals_of_file file) }
    // Which record is at fault.
    ensures fault { IfErr result (λ fault. IsFirstFault (lines bytes.now) fault.number) }
{
    let mut at = Standing::start();
    match at.take_last(bytes) {
        Ok(()) => match at.file_totals() {
            Some(totals) => Ok(totals),
            None => Err(at.next_fault()),
        },
        Err(_) => Err(at.next_fault()),
    }
}

/// Some record is at fault if and only if no file has the lines. One record at most is the first at
/// fault, and files of the same lines have the same totals.
pub fn hot_or_fault()
    ensures { (lines : List (List ℕ)) → HotOrFault lines }
{}
