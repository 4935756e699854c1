//! The file that has the office's token.

use bsp_check::{Fault, read_whole};
use bsp_fields::Token;
use bsp_streams::Noted;
use std::fs::{self, File};
use std::io;
use std::os::unix::fs::PermissionsExt;

/// The most bytes that such a file may have.
const MOST: usize = 4096;

/// The first line, without its line end: LF, or CR and LF.
fn first_line(text: &[u8]) -> &[u8] {
    let line = text.split(|byte| *byte == b'\n').next().unwrap_or(text);
    line.strip_suffix(b"\r").unwrap_or(line)
}

/// Whether the file is a directory, which cannot be read.
pub(crate) fn is_directory(rt: &HostRuntime, file: &str) -> bool {
    match fs::metadata(rt, file) {
        Ok(found) => found.is_dir(),
        Err(_) => false,
    }
}

/// Whether the file is its owner's alone: no other may read it. So is one of which nothing is found.
pub(crate) fn is_private(rt: &HostRuntime, file: &str) -> bool {
    match fs::metadata(rt, file) {
        Ok(found) => found.permissions().mode() & 0o044 == 0,
        Err(_) => true,
    }
}

/// The token that is the first line of a file of at most 4,096 bytes, or none where the line is no token or the file
/// is longer. It fails where the file cannot be opened or read.
pub(crate) fn read_token(rt: &HostRuntime, file: &str) -> io::Result<Option<Token>> {
    let mut input = Noted::new(File::open(rt, file)?);
    match read_whole(rt.alloc(), &mut input, MOST) {
        Ok(bytes) => Ok(Token::read(first_line(&bytes))),
        Err(Fault::TooLong) => Ok(None),
        Err(_) => Err(io::ErrorKind::Other.into()),
    }
}
