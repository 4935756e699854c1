//! The line of a body.

ghost use Rattle.std.specs.Prelude.{◌≡◌, ◌++◌, IfOk};
ghost use Rattle.bsp_body_faults.specs.Lines.{line_text, ret_line};

use crate::fault::BodyFault;
use bsp_fields::NoRoom;
use bsp_ret::RetFault;
use std::alloc::Global;

/// A text after another.
fn joined(alloc: Global, front: &[u8], rest: &[u8]) -> Result<Vec<u8>, NoRoom>
    ensures { IfOk result (λ line. line.items ≡ front.now ++ rest.now) }
{
    let mut line = Vec::from_slice(alloc, front)?;
    line.extend_from_slice(rest)?;
    Ok(line)
}

/// The line of a RET file's fault.
fn ret_line(alloc: Global, fault: RetFault) -> Result<Vec<u8>, NoRoom>
    ensures { IfOk result (λ line. line.items ≡ ret_line fault) }
{
    let at = fault.at;
    let text = format!(in alloc; " record {at}\n")?;
    joined(alloc, &fault.code.text(), text.as_bytes())
}

/// The line of a body with this fault, or with none: `OK`, `N04`, `F05 record 3` or `P01`.
///
/// # Errors
///
/// `NoRoom` where an allocation was refused.
pub fn body_line(alloc: Global, found: Option<BodyFault>) -> Result<Vec<u8>, NoRoom>
    ensures { IfOk result (λ line. line.items ≡ line_text found) }
{
    match found {
        None => joined(alloc, b"OK", b"\n"),
        Some(BodyFault::Json(_)) => joined(alloc, b"N04", b"\n"),
        Some(BodyFault::Ret(fault)) => ret_line(alloc, fault),
        Some(BodyFault::Plan(fault)) => joined(alloc, fault.code().as_bytes(), b"\n"),
    }
}
