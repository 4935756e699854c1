//! The exit statuses of the program.

/// The program did what it was asked for.
pub const DONE: u8 = 0;
/// An input has a fault, or the file of the book has no sound book of this version.
pub const REFUSED: u8 = 1;
/// The words of the command line are wrong, or the token is none.
pub const WRONG_WORDS: u8 = 2;
/// A file, a device, a port or a connection failed, or an allocation was refused.
pub const FAILED: u8 = 3;
