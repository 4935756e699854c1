//! The FILE of a command.

use std::fs::File;
use std::io;
use std::io::{Read, Stdin};

/// What a command reads.
#[derive(Drop)]
pub(crate) enum Input {
    /// A file.
    File(File),
    /// Standard input.
    Standard(Stdin),
}

impl Input {
    /// The file of that name, opened; `-` is standard input.
    pub(crate) fn open(rt: &HostRuntime, name: &str) -> io::Result<Input> {
        if name == "-" {
            return Ok(Input::Standard(rt.stdin()));
        }
        Ok(Input::File(File::open(rt, name)?))
    }

    /// How many bytes it has, where that is known.
    pub(crate) fn size(&self) -> Option<u64> {
        match self {
            Input::File(file) => match file.metadata() {
                Ok(metadata) if metadata.is_file() => Some(metadata.len()),
                _ => None,
            },
            Input::Standard(_) => None,
        }
    }
}

impl Read for Input {
    fn read(&mut self, buf: &mut [u8]) -> io::Result<usize> {
        match self {
            Input::File(file) => file.read(buf),
            Input::Standard(stdin) => stdin.read(buf),
        }
    }
}
