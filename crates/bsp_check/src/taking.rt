//! Taking the lines of an input, up to the first that is not allowed.

ghost use Rattle.std.specs.Prelude.{◌≡◌, ◌<◌, ◌+◌, ◌^◌, [], ℕ, List, true, false, length, None, Err, IfOk, IfErr};
ghost use Rattle.bsp_check.specs.Judging.{most_unended, TakesTo, IsTaken};
ghost use Rattle.bsp_check.specs.Windows.{text_of, IsWindow, Stops};

use crate::fault::Fault;
use crate::judging::Judge;
use crate::window::Window;
use bsp_fields::{NoRoom, first_record};
use bsp_streams::Noted;
use std::io::Read;

/// The most bytes that may begin a record and not be one: 136 characters and a CR.
const MOST_UNENDED: usize = 137;

/// How far the lines of a text were taken.
#[derive(Clone, Copy)]
pub(crate) struct Taken<F> {
    /// How many of the last bytes are left.
    pub(crate) kept: usize,
    /// Why the line with which they begin is not allowed.
    pub(crate) fault: Option<F>,
}

/// How many bytes at the end of a text may lack the end of a record.
fn most_unended(ended: bool) -> usize
    ensures { result ≡ most_unended ended }
{
    if ended { 0 } else { MOST_UNENDED }
}

/// Takes the lines of a text, up to the first that is not allowed. Where the input goes on after the text, the end of a
/// line in the last 137 bytes may be missing: none that begins there is taken.
///
/// # Errors
///
/// `NoRoom` where an allocation was refused.
fn take_lines<J: Judge>(judge: &mut J, text: &[u8], ended: bool) -> Result<Taken<J::Fault>, NoRoom>
    requires few { (ls : List (List ℕ)) × J.HasTaken judge.old ls × (length ls + length text.now < 2 ^ 62) }
    ensures taken { IfOk result (λ taken. TakesTo J.HasTaken J.IsAtFault ended judge.old judge.new text.now taken.kept taken.fault) }
{
    let most = most_unended(ended);
    let mut rest = text;
    while rest.len() > most {
        let Some((line, after)) = first_record(rest) else {
            return Ok(Taken {
                kept: rest.len(),
                fault: Some(judge.no_record()),
            });
        };
        match judge.take(line) {
            Ok(None) => {}
            Ok(Some(fault)) => {
                return Ok(Taken {
                    kept: rest.len(),
                    fault: Some(fault),
                });
            }
            Err(_) => return Err(NoRoom),
        }
        rest = after;
    }
    Ok(Taken {
        kept: rest.len(),
        fault: None,
    })
}

/// Takes the lines of an input, up to the first that is not allowed.
pub(crate) fn take_all<R: Read, J: Judge>(
    reader: &mut Noted<R>,
    window: &mut Window,
    judge: &mut J,
) -> Result<Taken<J::Fault>, Fault>
    requires window { IsWindow window.old }
    requires nothing { text_of window.old ≡ [] }
    requires left { window.old.left < 2 ^ 64 }
    requires goes_on { window.old.ended ≡ false }
    requires none { J.HasTaken judge.old [] }
    ensures taken { IfOk result (λ taken. IsTaken J.HasTaken J.IsAtFault judge.new taken.kept taken.fault window.old.left window.new (R.remaining reader.old.inner) (R.remaining reader.new.inner)) }
    ensures ended { IfOk result (λ taken. taken.fault ≡ None → window.new.ended ≡ true) }
    ensures stopped { IfErr result (λ fault. Stops window.old.left fault (R.remaining reader.old.inner) (R.remaining reader.new.inner)) }
    ensures cause { result ≡ Err Fault.Read → reader.new.failed ≡ true }
{
    let mut taken = Taken {
        kept: 0,
        fault: None,
    };
    while taken.fault.is_none() && !window.has_ended() {
        match window.advance(reader, taken.kept) {
            Ok(()) => {}
            Err(fault) => return Err(fault),
        }
        taken = match take_lines(judge, window.text(), window.has_ended()) {
            Ok(taken) => taken,
            Err(_) => return Err(Fault::Memory),
        };
    }
    Ok(taken)
}
