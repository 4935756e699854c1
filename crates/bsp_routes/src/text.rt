//! A room of fixed size for the text of a head.

ghost use Rattle.std.specs.Prelude.{◌≡◌, ℕ, ◌+◌, ◌≤◌, List, [], ◌++◌, length, take};

use std::marker::Model;

/// The text of a response's head, in a room of its own.
#[derive(Drop)]
pub struct HeadText {
    room: [u8; 256],
    len: usize,
}

impl Model for HeadText {
    ghost Value = { List ℕ };

    ghost view = { λ s. take s.len s.room };

    ghost invariant = { λ s. s.len ≤ 256 };
}

impl HeadText {
    pub(crate) fn new() -> HeadText
        ensures { result ≡ [] }
    {
        HeadText {
            room: [0; 256],
            len: 0,
        }
    }

    /// The bytes.
    pub fn as_bytes(&self) -> &[u8]
        ensures { result.now ≡ self.now }
    {
        &self.room[..self.len]
    }

    pub(crate) fn put(&mut self, text: &[u8])
        requires { length self.old + length text.now ≤ 256 }
        ensures { self.new ≡ self.old ++ text.now }
    {
        put_after(&mut self.room, self.len, text);
        self.len += text.len();
    }
}

fn put_after(room: &mut [u8], at: usize, text: &[u8])
    requires { at + length text.now ≤ length room.old }
    ensures { take (at + length text.now) room.new ≡ take at room.old ++ text.now }
{
    room[at..at + text.len()].copy_from_slice(text);
}
