//! Files that a command reads whole, and the text that it prints.

use crate::input::Input;
use crate::remarks::{say_fault, say_no_memory, say_unopened, say_unwritten};
use bsp_check::{FAILED, read_whole};
use bsp_streams::{Noted, send};
use std::io;
use std::io::Write;

/// The most bytes that a file may have.
const MOST: usize = 1_073_741_824;

/// The bytes of a file. Where they cannot be read it says why on standard error, and answers the exit status.
pub(crate) fn bytes_of(rt: &HostRuntime, file: &str) -> Result<Vec<u8>, u8> {
    let input = match Input::open(rt, file) {
        Ok(input) => input,
        Err(error) => {
            say_unopened(rt, file, &error);
            return Err(FAILED);
        }
    };
    match read_whole(rt.alloc(), &mut Noted::new(input), MOST) {
        Ok(bytes) => Ok(bytes),
        Err(fault) => {
            say_fault(rt, file, fault);
            Err(FAILED)
        }
    }
}

/// The bytes of each file.
pub(crate) fn all_bytes(rt: &HostRuntime, files: &[&str]) -> Result<Vec<Vec<u8>>, u8> {
    let mut all = Vec::new(rt.alloc());
    for file in files {
        let bytes = bytes_of(rt, file)?;
        if all.push(bytes).is_err() {
            return Err(short_of_memory(rt));
        }
    }
    Ok(all)
}

/// Says that memory is short, and answers the exit status.
pub(crate) fn short_of_memory(rt: &HostRuntime) -> u8 {
    say_no_memory(rt);
    FAILED
}

/// Prints a text, and answers this exit status, or that of a write that failed.
pub(crate) fn printed(rt: &HostRuntime, text: &[u8], status: u8) -> u8 {
    let mut output = Noted::new(io::writer(rt));
    if send(&mut output, text).is_err() || output.flush().is_err() {
        say_unwritten(rt);
        return FAILED;
    }
    status
}
