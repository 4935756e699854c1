//! The line with which a window begins, which may be longer than the window.

ghost use Rattle.std.specs.Prelude.{◌≡◌, ◌<◌, ◌≤◌, ◌+◌, ◌^◌, ◌++◌, ℕ, List, true, false, length, Err, IfOk, IfErr};
ghost use Rattle.std.specs.Io.KnownBytes.{IsAtEnd};
ghost use Rattle.bsp_ret.specs.Lines.{lines, has_end};
ghost use Rattle.bsp_explain.specs.Lines.{IsLine};
ghost use Rattle.bsp_check.specs.Windows.{text_of, room, MayFollow, IsWindow, Stops};
ghost use Rattle.bsp_check.specs.Widths.{HasWidth};

use crate::fault::Fault;
use crate::window::Window;
use bsp_fields::{ended_line, first_line};
use bsp_streams::Noted;
use std::io::Read;

/// Whether the end of the first line is in the window, or the input has ended.
pub(crate) fn has_line(window: &Window) -> bool
    requires { IsWindow window.now }
    ensures whole { result ≡ true → (more : List ℕ) → MayFollow window.now.ended more → (line : List ℕ) → IsLine 0 (lines (text_of window.now ++ more)) line → IsLine 0 (lines (text_of window.now)) line }
    ensures goes_on { result ≡ false → window.now.ended ≡ false }
    ensures unended { result ≡ false → has_end (text_of window.now) ≡ false }
{
    if window.has_ended() {
        return true;
    }
    match ended_line(window.text()) {
        Some(_) => true,
        None => false,
    }
}

/// How many characters the line has with which the window begins. It is as long as the window at least.
pub(crate) fn line_width<R: Read>(
    reader: &mut Noted<R>,
    window: &mut Window,
) -> Result<usize, Fault>
    requires window { IsWindow window.old }
    requires goes_on { window.old.ended ≡ false }
    requires full { length (text_of window.old) ≡ room }
    requires unended { has_end (text_of window.old) ≡ false }
    requires few { length (text_of window.old) + window.old.left < 2 ^ 64 }
    ensures width { IfOk result (λ width. HasWidth (text_of window.old) width window.old window.new (R.remaining reader.old.inner) (R.remaining reader.new.inner)) }
    ensures stopped { IfErr result (λ fault. Stops window.old.left fault (R.remaining reader.old.inner) (R.remaining reader.new.inner)) }
    ensures cause { result ≡ Err Fault.Read → reader.new.failed ≡ true }
{
    let mut before = window.text().len() - 1;
    match window.advance(reader, 1) {
        Ok(()) => {}
        Err(fault) => return Err(fault),
    }
    while !has_line(window) {
        before += window.text().len() - 1;
        match window.advance(reader, 1) {
            Ok(()) => {}
            Err(fault) => return Err(fault),
        }
    }
    Ok(before + first_line(window.text()).0.len())
}
