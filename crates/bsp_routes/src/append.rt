//! Appending to bytes that have room.

ghost use Rattle.std.specs.Prelude.{◌≡◌, ◌+◌, ◌≤◌, ◌++◌, length, vec_capacity, vec_len};

/// Appends a text.
#[inline(always)]
pub(crate) fn put(bytes: &mut Vec<u8>, text: &[u8])
    requires { vec_len bytes.old + length text.now ≤ vec_capacity bytes.old }
    ensures items { bytes.new.items ≡ bytes.old.items ++ text.now }
    ensures len { vec_len bytes.new ≡ vec_len bytes.old + length text.now }
    ensures capacity { vec_capacity bytes.old ≤ vec_capacity bytes.new }
{
    let _ = bytes.extend_from_slice(text);
}
