//! The width and the characters of a record.

ghost use Rattle.std.specs.Prelude.{◌≡◌, ◌≢◌, ◌++◌, ℕ, List, length, true, false, IfSome, IfNone};
ghost use Rattle.std.specs.List.{list_all};
ghost use Rattle.bsp_fields.specs.Columns.{is_printable, is_wide};
ghost use Rattle.bsp_explain.specs.Reasons.{SaysOfWidth};
ghost use Rattle.bsp_explain.specs.RetReasons.{Says, is_reason_of};
ghost use Rattle.bsp_ret.specs.declared.model.FaultCode.TheVariants.{F01};
ghost use Rattle.bsp_ret.specs.declared.model.Standing.{Standing};

use crate::reason::Reason;
use bsp_fault_texts::{Cause, cause_of};

/// Whether a character lies from 0x20 to 0x7E.
fn is_printable(character: u8) -> bool
    ensures { result ≡ is_printable character }
{
    b' ' <= character && character <= b'~'
}

/// The first character outside 0x20 to 0x7E, with its column.
fn unprintable(line: &[u8]) -> Option<(u8, u8)>
    requires { length line.now ≡ 136 }
    ensures some { IfSome result (λ found. SaysOfWidth line.now (Reason.Character found.0 found.1 Cause.Unknown) × (list_all is_printable line.now ≡ false)) }
    ensures none { IfNone result (list_all is_printable line.now ≡ true) }
{
    for index in 0..136u8 {
        let character = line[index as usize];
        if !is_printable(character) {
            return Some((index + 1, character));
        }
    }
    None
}

/// Why a line is no record of 136 characters from 0x20 to 0x7E.
#[tactic(auto, unfolding(bsp_fields::specs::Columns::is_wide))]
pub fn width_reason(line: &[u8]) -> Option<Reason>
    ensures says { (n : ℕ) (at : Standing) → IfSome result (Says n at line.now) }
    ensures row { IfSome result (λ reason. is_reason_of F01 reason ≡ true) }
    ensures says_of_width { IfSome result (SaysOfWidth line.now) }
    ensures narrow { IfSome result (λ reason. is_wide line.now ≡ false) }
    ensures wide { IfNone result (is_wide line.now ≡ true) }
    ensures long { IfNone result (length line.now ≡ 136) }
{
    let width = line.len();
    if width != 136 {
        let cause = cause_of(line);
        return Some(Reason::Width { width, cause });
    }
    match unprintable(line) {
        Some((column, character)) => Some(Reason::Character {
            column,
            character,
            cause: cause_of(line),
        }),
        None => None,
    }
}

/// Why a line of so many characters, of which these are the first, is no record: they are not 136.
pub fn long_reason(head: &[u8], width: usize) -> Reason
    requires { width ≢ 136 }
    ensures says { (n : ℕ) (at : Standing) (more : List ℕ) → length (head.now ++ more) ≡ width → Says n at (head.now ++ more) result }
    ensures says_of_width { (more : List ℕ) → length (head.now ++ more) ≡ width → SaysOfWidth (head.now ++ more) result }
    ensures row { is_reason_of F01 result ≡ true }
{
    Reason::Width {
        width,
        cause: cause_of(head),
    }
}
