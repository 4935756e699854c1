//! A reader of a file that comes in pieces.

ghost use Rattle.std.specs.Prelude.{◌≡◌, ◌⊎◌, [], ◌++◌, Ok, Err, None, Some, MatchResult, OnOk, IfOk, IfErr, length, ◌<◌};
ghost use Rattle.bsp_fields.specs.Lines.{lines};
ghost use Rattle.bsp_ret.specs.Table.{first_fault};
ghost use Rattle.bsp_ret.specs.Ret.{File, Ret};
ghost use Rattle.bsp_ret.specs.Reading.{no_memory};
ghost use Rattle.bsp_ret.specs.Pieces.{Fed, IsFinal, IsClearSoFar, fault_at_end};

use crate::file::RetFile;
use crate::model::{FaultCode, Progress, RetFault};
use crate::notes::{Notes, Place, noted_file};
use crate::pieces::{Stop, judge_lines, judge_rest};
use std::alloc::Global;
use std::marker::Model;

/// A reader of a RET file whose bytes come in pieces. It keeps one copy of the bytes, and notes where
/// their records are. A contract sees the bytes that came and how far the reader is.
#[derive(Drop)]
pub struct RetReader {
    alloc: Global,
    bytes: Vec<u8>,
    notes: Notes,
    closed: Vec<Place>,
    progress: Progress,
}

impl Model for RetReader {
    ghost use Rattle.bsp_ret.specs.Pieces.{Fed, IsKnown};

    ghost Value = { Fed };

    ghost view = { λ r. record { bytes = r.bytes.items; progress = r.progress } };

    ghost invariant = { λ r. IsKnown r.progress r.notes r.closed.items r.bytes.items };
}

impl RetReader {
    /// A reader to which nothing was fed.
    pub fn new(alloc: Global) -> RetReader
        ensures { result ≡ record { bytes = []; progress = Progress.Reading } }
    {
        RetReader {
            alloc,
            bytes: Vec::new(alloc),
            notes: Notes::new(),
            closed: Vec::new(alloc),
            progress: Progress::Reading,
        }
    }

    /// Takes the next piece, and judges each line that has an end.
    ///
    /// # Errors
    ///
    /// The first fault of all bytes fed, however they go on; every later call answers it again.
    /// After a `finish` without fault, F09 for any byte. F10 where an allocation was
    /// refused, and the reader is as it was.
    pub fn feed(&mut self, piece: &[u8]) -> Result<(), RetFault>
        ensures failed { (fault : RetFault) → self.old.progress ≡ Progress.Failed fault → (result ≡ Err fault) × (self.new ≡ self.old) }
        ensures ended_none { self.old.progress ≡ Progress.Ended → length piece.now ≡ 0 → (result ≡ Ok tt) × (self.new ≡ self.old) }
        ensures ended_some { self.old.progress ≡ Progress.Ended → 0 < length piece.now
            → (result ≡ Err (fault_at_end FaultCode.F09 self.old.bytes)) × (self.new ≡ record { bytes = self.old.bytes; progress = Progress.Failed (fault_at_end FaultCode.F09 self.old.bytes) }) }
        ensures ok { self.old.progress ≡ Progress.Reading
            → OnOk result ((self.new ≡ record { bytes = self.old.bytes ++ piece.now; progress = Progress.Reading }) × IsClearSoFar self.new.bytes) }
        ensures fault { self.old.progress ≡ Progress.Reading → IfErr result (λ fault. ((fault ≡ no_memory) × (self.new ≡ self.old))
            ⊎ ((self.new ≡ record { bytes = self.old.bytes ++ piece.now; progress = Progress.Failed fault }) × IsFinal (self.old.bytes ++ piece.now) fault)) }
    {
        match self.progress {
            Progress::Failed(fault) => return Err(fault),
            Progress::Ended => return self.feed_behind(piece),
            Progress::Reading => {}
        }
        let came = self.bytes.len();
        let count = self.closed.len();
        self.bytes.extend_from_slice(piece)?;
        match judge_lines(self.notes, &mut self.closed, &self.bytes) {
            Ok(notes) => {
                self.notes = notes;
                Ok(())
            }
            Err(Stop::Fault(fault)) => {
                self.progress = Progress::Failed(fault);
                Err(fault)
            }
            Err(Stop::Memory) => {
                self.bytes.truncate(came);
                self.closed.truncate(count);
                Err(RetFault {
                    code: FaultCode::F10,
                    at: 0,
                })
            }
        }
    }

    /// Takes a piece behind the file.
    fn feed_behind(&mut self, piece: &[u8]) -> Result<(), RetFault>
        requires { self.old.progress ≡ Progress.Ended }
        ensures none { length piece.now ≡ 0 → (result ≡ Ok tt) × (self.new ≡ self.old) }
        ensures some { 0 < length piece.now
            → (result ≡ Err (fault_at_end FaultCode.F09 self.old.bytes)) × (self.new ≡ record { bytes = self.old.bytes; progress = Progress.Failed (fault_at_end FaultCode.F09 self.old.bytes) }) }
    {
        if piece.is_empty() {
            return Ok(());
        }
        let fault = self.notes.at.fault(FaultCode::F09);
        self.progress = Progress::Failed(fault);
        Err(fault)
    }

    /// Ends the text: judges a last line without an end, and whether the file is whole. Takes no
    /// memory.
    ///
    /// # Errors
    ///
    /// The first fault of all bytes fed; every later call answers it again.
    pub fn finish(&mut self) -> Result<(), RetFault>
        ensures failed { (fault : RetFault) → self.old.progress ≡ Progress.Failed fault → (result ≡ Err fault) × (self.new ≡ self.old) }
        ensures ended { self.old.progress ≡ Progress.Ended → (result ≡ Ok tt) × (self.new ≡ self.old) }
        ensures reading { self.old.progress ≡ Progress.Reading → MatchResult result
            (λ _. (first_fault (lines self.old.bytes) ≡ None) × (self.new ≡ record { bytes = self.old.bytes; progress = Progress.Ended }))
            (λ fault. (first_fault (lines self.old.bytes) ≡ Some fault) × (self.new ≡ record { bytes = self.old.bytes; progress = Progress.Failed fault })) }
    {
        match self.progress {
            Progress::Failed(fault) => return Err(fault),
            Progress::Ended => return Ok(()),
            Progress::Reading => {}
        }
        let notes = match judge_rest(self.notes, &self.bytes) {
            Ok(notes) => notes,
            Err(fault) => {
                self.progress = Progress::Failed(fault);
                return Err(fault);
            }
        };
        self.notes = notes;
        self.progress = Progress::Ended;
        Ok(())
    }

    /// The file, the one that `read_ret` gives of all bytes fed. Another call gives it again.
    ///
    /// # Errors
    ///
    /// The fault that was answered; F08 before a `finish` without fault; F10 where an allocation
    /// was refused.
    pub fn file(&self) -> Result<RetFile<'_>, RetFault>
        ensures failed { (fault : RetFault) → self.now.progress ≡ Progress.Failed fault → result ≡ Err fault }
        ensures reading { self.now.progress ≡ Progress.Reading → result ≡ Err (fault_at_end FaultCode.F08 self.now.bytes) }
        ensures found { IfOk result (λ file. Ret (lines self.now.bytes) file) }
        ensures only { self.now.progress ≡ Progress.Ended → (file : File) → Ret (lines self.now.bytes) file → (result ≡ Ok file) ⊎ (result ≡ Err no_memory) }
        ensures fault { self.now.progress ≡ Progress.Ended → IfErr result (λ fault. fault ≡ no_memory) }
    {
        match self.progress {
            Progress::Failed(fault) => Err(fault),
            Progress::Reading => Err(self.unended()),
            Progress::Ended => noted_file(self.alloc, self.notes, &self.closed, &self.bytes),
        }
    }

    /// The fault of a text that has not ended: its trailer lacks.
    fn unended(&self) -> RetFault
        requires { self.now.progress ≡ Progress.Reading }
        ensures { result ≡ fault_at_end FaultCode.F08 self.now.bytes }
    {
        let Notes { judged, at, .. } = self.notes;
        if judged == self.bytes.len() {
            return at.fault(FaultCode::F08);
        }
        RetFault {
            code: FaultCode::F08,
            at: at.records + 2,
        }
    }
}
