//! A file from its text.

ghost use Rattle.std.specs.Prelude.{◌≡◌, ◌⊎◌, List, ℕ, [], IfOk, IfErr, Ok, Err, Some};
ghost use Rattle.bsp_fields.specs.Lines.{lines};
ghost use Rattle.bsp_ret.specs.Table.{first_fault};
ghost use Rattle.bsp_ret.specs.Ret.{File, Ret};
ghost use Rattle.bsp_ret.specs.Reading.{no_memory};
ghost use Rattle.bsp_ret.specs.Notes.{IsFileNoted};
ghost use Rattle.bsp_ret.specs.Law.{FaultOrFile};

use crate::file::RetFile;
use crate::model::{FaultCode, RetFault};
use crate::notes::{Notes, Place, noted_file};
use crate::pieces::{Stop, judge_lines, judge_rest};
use std::alloc::Global;

/// Notes all records of a text.
fn noted(closed: &mut Vec<Place>, bytes: &[u8]) -> Result<Notes, RetFault>
    requires { closed.old.items ≡ [] }
    ensures ok { IfOk result (λ notes. IsFileNoted notes closed.new.items bytes.now) }
    ensures err { IfErr result (λ e. (e ≡ no_memory) ⊎ (first_fault (lines bytes.now) ≡ Some e)) }
{
    match judge_lines(Notes::new(), closed, bytes) {
        Ok(notes) => judge_rest(notes, bytes),
        Err(Stop::Fault(fault)) => Err(fault),
        Err(Stop::Memory) => Err(RetFault {
            code: FaultCode::F10,
            at: 0,
        }),
    }
}

/// Reads a RET file in one pass. Its fields are slices of `bytes`.
///
/// # Errors
///
/// The first record at fault with the first row F01 to F09 of the fault table that applies to it;
/// F10 with record 0 where an allocation was refused.
pub fn read_ret(alloc: Global, bytes: &[u8]) -> Result<RetFile<'_>, RetFault>
    // What is read is in the relation.
    ensures found { IfOk result (λ file. Ret (lines bytes.now) file) }
    // What is in the relation is read, unless memory runs out.
    ensures only { (file : File) → Ret (lines bytes.now) file → (result ≡ Ok file) ⊎ (result ≡ Err no_memory) }
    // Which fault it is.
    ensures fault { IfErr result (λ e. (e ≡ no_memory) ⊎ (first_fault (lines bytes.now) ≡ Some e)) }
{
    let mut closed = Vec::new(alloc);
    match noted(&mut closed, bytes) {
        Ok(notes) => noted_file(alloc, notes, &closed, bytes),
        Err(fault) => Err(fault),
    }
}

/// No record is at fault if and only if some file is in the relation, and no two files are.
pub fn fault_or_file()
    ensures { (lines : List (List ℕ)) → FaultOrFile lines }
{}
