//! The bytes of a text with room for more, so that each is appended without a test of the capacity.
ghost use Rattle.std.specs.Prelude.{◌≡◌, ◌+◌, ◌≤◌, IsTrue, string_bytes, IsUtf8};
ghost use Rattle.std.specs.String.{string_capacity, string_len, string_vec};

use std::mem;

/// Returns whether a text has room for so many more bytes.
#[inline(always)]
pub(crate) fn has_room(additional: usize, text: &String) -> bool
    ensures { IsTrue result → string_len text.now + additional ≤ string_capacity text.now }
{
    additional <= text.capacity() - text.len()
}

/// Takes the bytes of a text. It leaves the text empty, which `put_bytes` fills again.
#[inline(always)]
pub(crate) fn take_bytes(text: &mut String) -> Vec<u8>
    ensures value { result ≡ string_vec text.old }
    ensures utf8 { IsUtf8 result.items }
{
    let empty = String::new(*text.allocator());
    mem::replace(text, empty).into_bytes()
}

/// Puts the bytes into a text that `take_bytes` left empty.
#[inline(always)]
pub(crate) fn put_bytes(bytes: Vec<u8>, text: &mut String)
    requires { IsUtf8 bytes.items }
    ensures { string_bytes text.new ≡ bytes.items }
{
    let filled = unsafe { String::from_utf8_unchecked(bytes) };
    // The empty text owns no memory. To drop it would be a test.
    mem::forget(mem::replace(text, filled));
}
