//! Writing, with what a fault leaves written.

ghost use Rattle.std.specs.Prelude.{◌≡◌, ◌++◌, true, false, IsErr, OnErr};
ghost use Rattle.std.specs.Io.KnownBytes.{Keeps};
ghost use Rattle.bsp_streams.specs.Written.{IsWritten};

use crate::noted::Noted;
use std::io::Write;

/// A write failed, or took no byte.
#[derive(Clone, Copy)]
pub struct WriteFault;

/// Writes the bytes. Where it fails, a first part of them was written. Once a call of the writer has failed, nothing
/// more is written.
pub fn send<W: Write>(writer: &mut Noted<W>, bytes: &[u8]) -> Result<(), WriteFault>
    ensures written { IsWritten (W.contents writer.old.inner) (W.contents writer.new.inner) bytes.now result }
    ensures cause { OnErr result (writer.new.failed ≡ true) }
    ensures noted { writer.old.failed ≡ true → writer.new.failed ≡ true }
    ensures silent { writer.old.failed ≡ true → (writer.new ≡ writer.old) × IsErr result }
{
    if writer.has_failed() {
        return Err(WriteFault);
    }
    let mut at = 0;
    while at < bytes.len() {
        match writer.write(&bytes[at..]) {
            Ok(0) => return Err(WriteFault),
            Ok(count) => at += count,
            Err(_) => return Err(WriteFault),
        }
    }
    Ok(())
}

/// Writes two texts.
fn send_both<W: Write>(writer: &mut Noted<W>, first: &[u8], second: &[u8]) -> Result<(), WriteFault>
    ensures written { IsWritten (W.contents writer.old.inner) (W.contents writer.new.inner) (first.now ++ second.now) result }
    ensures cause { OnErr result (writer.new.failed ≡ true) }
    ensures noted { writer.old.failed ≡ true → writer.new.failed ≡ true }
{
    send(writer, first)?;
    send(writer, second)
}

/// Writes three texts, as [`send`] writes one.
pub fn send_all<W: Write>(
    writer: &mut Noted<W>,
    texts: (&[u8], &[u8], &[u8]),
) -> Result<(), WriteFault>
    ensures written { IsWritten (W.contents writer.old.inner) (W.contents writer.new.inner) (texts.entry.0.now ++ (texts.entry.1.now ++ texts.entry.2.now)) result }
    ensures cause { OnErr result (writer.new.failed ≡ true) }
    ensures noted { writer.old.failed ≡ true → writer.new.failed ≡ true }
{
    send(writer, texts.0)?;
    send_both(writer, texts.1, texts.2)
}

/// Has a writer that holds bytes back send them. After a failure nothing more is written.
pub fn send_on<W: Write>(writer: &mut Noted<W>)
    ensures kept { Keeps (W.contents writer.old.inner) (W.contents writer.new.inner) }
    ensures noted { writer.old.failed ≡ true → writer.new.failed ≡ true }
    ensures sent { writer.new.pending ≡ false }
{
    let _ = writer.flush();
}
