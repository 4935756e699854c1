//! A reader or a writer that notes how its calls ended.

ghost use Rattle.std.specs.Prelude.{◌≡◌, ◌≢◌, true, false, IfErr};
ghost use Rattle.std.specs.Io.KnownBytes.{Keeps, ReadConsumes, WriteAppends};
ghost use Rattle.std.specs.Io.{ReadsAtMost, WritesAtMost};
ghost use Rattle.std.specs.IoError.{error_kind};
ghost use Rattle.bsp_streams.specs.Noted.{empty_reads, failed_by, failed_by_write};

use std::io;
use std::io::{ErrorKind, Read, Write};

/// A reader or a writer, with what is noted of its calls. A call that a signal interrupts is made again.
#[derive(Drop)]
pub struct Noted<T> {
    inner: T,
    // Whether a call failed.
    failed: bool,
    // How many reads brought no byte.
    empty: u64,
    // Whether a write was called, and no flush after it.
    pending: bool,
}

impl<T> Noted<T> {
    /// The reader or the writer, of which nothing is noted.
    pub fn new(inner: T) -> Noted<T>
        ensures inner { result.inner ≡ inner }
        ensures failed { result.failed ≡ false }
        ensures empty { result.empty ≡ 0 }
        ensures pending { result.pending ≡ false }
    {
        Noted {
            inner,
            failed: false,
            empty: 0,
            pending: false,
        }
    }

    /// Whether a call failed: by an error, or as a write that took no byte of some.
    pub fn has_failed(&self) -> bool
        ensures { result ≡ self.now.failed }
    {
        self.failed
    }

    /// How many reads brought no byte, by an error or at the end of the input; `u64::MAX` also of more.
    pub fn empty_reads(&self) -> u64
        ensures { result ≡ self.now.empty }
    {
        self.empty
    }

    /// The reader or the writer.
    pub fn into_inner(self) -> T
        ensures { result ≡ self.inner }
    {
        self.inner
    }
}

/// Reads once, and again where the read was interrupted.
fn read_again<R: Read>(reader: &mut R, room: &mut [u8]) -> io::Result<usize>
    ensures bound { ReadsAtMost result room.new }
    ensures bytes { ReadConsumes (R.remaining reader.old) (R.remaining reader.new) result room.new }
    ensures again { IfErr result (λ e. error_kind e ≢ ErrorKind.Interrupted) }
{
    for _ in 0..u64::MAX {
        match reader.read(room) {
            Ok(count) => return Ok(count),
            Err(e) if e.kind() == ErrorKind::Interrupted => {}
            Err(e) => return Err(e),
        }
    }
    Err(ErrorKind::TimedOut.into())
}

/// Writes once, and again where the write was interrupted.
fn write_again<W: Write>(writer: &mut W, bytes: &[u8]) -> io::Result<usize>
    ensures bound { WritesAtMost result bytes.now }
    ensures bytes { WriteAppends (W.contents writer.old) (W.contents writer.new) result bytes.now }
    ensures again { IfErr result (λ e. error_kind e ≢ ErrorKind.Interrupted) }
{
    for _ in 0..u64::MAX {
        match writer.write(bytes) {
            Ok(count) => return Ok(count),
            Err(e) if e.kind() == ErrorKind::Interrupted => {}
            Err(e) => return Err(e),
        }
    }
    Err(ErrorKind::TimedOut.into())
}

/// Has the writer send what it holds back, and again where that was interrupted.
fn flush_again<W: Write>(writer: &mut W) -> io::Result<()>
    ensures bytes { Keeps (W.contents writer.old) (W.contents writer.new) }
    ensures again { IfErr result (λ e. error_kind e ≢ ErrorKind.Interrupted) }
{
    for _ in 0..u64::MAX {
        match writer.flush() {
            Ok(()) => return Ok(()),
            Err(e) if e.kind() == ErrorKind::Interrupted => {}
            Err(e) => return Err(e),
        }
    }
    Err(ErrorKind::TimedOut.into())
}

/// Whether a call failed, behind one more write of the bytes.
fn failed_by_write(before: bool, bytes: &[u8], written: &io::Result<usize>) -> bool
    ensures { result ≡ failed_by_write before bytes.now written.now }
{
    match written {
        Ok(count) => before || (*count == 0 && !bytes.is_empty()),
        Err(_) => true,
    }
}

/// The reads that brought no byte, behind one more read.
fn empty_reads(before: u64, read: &io::Result<usize>) -> u64
    ensures { result ≡ empty_reads before read.now }
{
    match read {
        Ok(count) if *count > 0 => before,
        _ => before.saturating_add(1),
    }
}

impl<R: Read> Read for Noted<R> {
    ghost remaining = { λ noted. R.remaining noted.inner };

    fn read(&mut self, buf: &mut [u8]) -> io::Result<usize>
        ensures bound { ReadsAtMost result buf.new }
        ensures bytes { ReadConsumes (R.remaining self.old.inner) (R.remaining self.new.inner) result buf.new }
        ensures again { IfErr result (λ e. error_kind e ≢ ErrorKind.Interrupted) }
        ensures failed { self.new.failed ≡ failed_by self.old.failed result }
        ensures empty { self.new.empty ≡ empty_reads self.old.empty result }
    {
        let read = read_again(&mut self.inner, buf);
        if read.is_err() {
            self.failed = true;
        }
        self.empty = empty_reads(self.empty, &read);
        read
    }
}

impl<W: Write> Write for Noted<W> {
    ghost contents = { λ noted. W.contents noted.inner };

    fn write(&mut self, buf: &[u8]) -> io::Result<usize>
        ensures bound { WritesAtMost result buf.now }
        ensures bytes { WriteAppends (W.contents self.old.inner) (W.contents self.new.inner) result buf.now }
        ensures again { IfErr result (λ e. error_kind e ≢ ErrorKind.Interrupted) }
        ensures failed { self.new.failed ≡ failed_by_write self.old.failed buf.now result }
        ensures pending { self.new.pending ≡ true }
    {
        let written = write_again(&mut self.inner, buf);
        self.failed = failed_by_write(self.failed, buf, &written);
        self.pending = true;
        written
    }

    fn flush(&mut self) -> io::Result<()>
        ensures bytes { Keeps (W.contents self.old.inner) (W.contents self.new.inner) }
        ensures again { IfErr result (λ e. error_kind e ≢ ErrorKind.Interrupted) }
        ensures failed { self.new.failed ≡ failed_by self.old.failed result }
        ensures pending { self.new.pending ≡ false }
    {
        let flushed = flush_again(&mut self.inner);
        if flushed.is_err() {
            self.failed = true;
        }
        self.pending = false;
        flushed
    }
}
