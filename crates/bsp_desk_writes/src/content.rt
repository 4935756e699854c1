//! What the body of a request holds.

ghost use Rattle.std.specs.Prelude.{◌≡◌};
ghost use Rattle.bsp_desk_writes.specs.Contents.{EachContentIsRead, bytes_in};

use bsp_ret::{RetFault, RetFile};

/// The content of a request: the bytes of its body or, of a RET file, what its reader gave.
#[derive(Clone, Copy)]
pub enum Content<'r> {
    /// The bytes of the body.
    Bytes(&'r [u8]),
    /// A RET file without fault.
    File(&'r RetFile<'r>),
    /// The first fault of a RET file, or out of memory, F10.
    Fault(RetFault),
}

impl<'r> Content<'r> {
    /// The bytes of the body. What a reader gave has none.
    pub fn bytes(&self) -> &'r [u8]
        ensures { result.now ≡ bytes_in self.now }
    {
        match self {
            Content::Bytes(bytes) => bytes,
            Content::File(_) | Content::Fault(_) => b"",
        }
    }
}

/// Each call with its content is read as some request of `bsp_office_spec`. What a reader gave as a file
/// is to be one, as each [`RetFile`] is.
pub fn contents_are_read()
    ensures { EachContentIsRead }
{}
