//! The part of an input that is judged next.

ghost use Rattle.std.specs.Prelude.{◌≡◌, ◌≢◌, ◌≤◌, ◌<◌, ◌+◌, [], true, false, length, IfOk, IfErr, OnOk, OnErr, Err};
ghost use Rattle.std.specs.Io.KnownBytes.{IsAtEnd, Keeps};
ghost use Rattle.bsp_check.specs.Windows.{text_of, last_of, IsWindow, Reads, Fills, Drains, Stops};

use crate::fault::Fault;
use bsp_streams::Noted;
use std::alloc::{AllocError, Global};
use std::io::Read;

/// The most bytes of an input that are kept at a time.
const ROOM: usize = 262_144;

/// What was read of an input and is to be judged, and how many bytes more may be read.
#[derive(Drop)]
pub(crate) struct Window {
    room: Vec<u8>,
    filled: usize,
    left: usize,
    ended: bool,
}

impl Window {
    /// Nothing of an input of which so many bytes may be read.
    pub(crate) fn new(alloc: Global, left: usize) -> Result<Window, AllocError>
        ensures window { IfOk result IsWindow }
        ensures text { IfOk result (λ window. text_of window ≡ []) }
        ensures left { IfOk result (λ window. window.left ≡ left) }
        ensures ended { IfOk result (λ window. window.ended ≡ false) }
    {
        Ok(Window {
            room: Vec::from_elem(alloc, 0u8, ROOM)?,
            filled: 0,
            left,
            ended: false,
        })
    }

    /// What was read and is to be judged.
    pub(crate) fn text(&self) -> &[u8]
        requires { IsWindow self.now }
        ensures text { result.now ≡ text_of self.now }
        ensures long { length result.now ≡ self.now.filled }
    {
        &self.room[..self.filled]
    }

    /// Whether the input has ended after the text.
    pub(crate) fn has_ended(&self) -> bool
        ensures { result ≡ self.now.ended }
    {
        self.ended
    }

    /// Reads once, after the text.
    fn read_more<R: Read>(&mut self, reader: &mut Noted<R>) -> Result<(), Fault>
        requires window { IsWindow self.old }
        requires room { self.old.filled < 262_144 }
        requires left { 0 < self.old.left }
        requires goes_on { self.old.ended ≡ false }
        ensures read { OnOk result (Reads (text_of self.old) self.old self.new (R.remaining reader.old.inner) (R.remaining reader.new.inner)) }
        ensures more { OnOk result (self.new.ended ≡ false → self.new.left < self.old.left) }
        ensures fault { OnErr result (result ≡ Err Fault.Read) }
        ensures kept { OnErr result (Keeps (R.remaining reader.old.inner) (R.remaining reader.new.inner)) }
        ensures cause { OnErr result (reader.new.failed ≡ true) }
    {
        let end = self.filled + (ROOM - self.filled).min(self.left);
        match reader.read(&mut self.room[self.filled..end]) {
            Ok(0) => self.ended = true,
            Ok(count) => {
                self.filled += count;
                self.left -= count;
            }
            Err(_) => return Err(Fault::Read),
        }
        Ok(())
    }

    /// Reads until the window is full, or the input ends.
    fn fill<R: Read>(&mut self, reader: &mut Noted<R>) -> Result<(), Fault>
        requires window { IsWindow self.old }
        requires end { self.old.ended ≡ true → IsAtEnd (R.remaining reader.old.inner) }
        ensures filled { OnOk result (Fills (text_of self.old) self.old self.new (R.remaining reader.old.inner) (R.remaining reader.new.inner)) }
        ensures stopped { IfErr result (λ fault. Stops self.old.left fault (R.remaining reader.old.inner) (R.remaining reader.new.inner)) }
        ensures cause { result ≡ Err Fault.Read → reader.new.failed ≡ true }
    {
        while !self.ended && self.filled < ROOM {
            if self.left == 0 {
                return Err(Fault::TooLong);
            }
            match self.read_more(reader) {
                Ok(()) => {}
                Err(fault) => return Err(fault),
            }
        }
        Ok(())
    }

    /// Keeps so many of the last bytes, and reads on after them.
    pub(crate) fn advance<R: Read>(
        &mut self,
        reader: &mut Noted<R>,
        kept: usize,
    ) -> Result<(), Fault>
        requires window { IsWindow self.old }
        requires kept { kept ≤ self.old.filled }
        requires end { self.old.ended ≡ true → IsAtEnd (R.remaining reader.old.inner) }
        ensures filled { OnOk result (Fills (last_of kept (text_of self.old)) self.old self.new (R.remaining reader.old.inner) (R.remaining reader.new.inner)) }
        ensures stopped { IfErr result (λ fault. Stops self.old.left fault (R.remaining reader.old.inner) (R.remaining reader.new.inner)) }
        ensures cause { result ≡ Err Fault.Read → reader.new.failed ≡ true }
    {
        self.room.copy_within(self.filled - kept..self.filled, 0);
        self.filled = kept;
        self.fill(reader)
    }

    /// Reads on to the end of the input, and keeps nothing of it.
    pub(crate) fn drain<R: Read>(&mut self, reader: &mut Noted<R>) -> Result<(), Fault>
        requires window { IsWindow self.old }
        requires end { self.old.ended ≡ true → IsAtEnd (R.remaining reader.old.inner) }
        ensures drained { OnOk result (Drains self.old self.new (R.remaining reader.old.inner) (R.remaining reader.new.inner)) }
        ensures stopped { IfErr result (λ fault. Stops self.old.left fault (R.remaining reader.old.inner) (R.remaining reader.new.inner)) }
        ensures cause { result ≡ Err Fault.Read → reader.new.failed ≡ true }
    {
        while !self.ended {
            match self.advance(reader, 0) {
                Ok(()) => {}
                Err(fault) => return Err(fault),
            }
        }
        Ok(())
    }
}
