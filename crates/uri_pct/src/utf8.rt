//! Characters of a text in UTF-8.
ghost use Rattle.std.specs.Prelude.{◌≡◌, ◌<◌, ◌+◌, ◌++◌, length, drop, encode_utf8, IsCharBoundary};
ghost use Rattle.std.specs.Char.{len_utf8};

/// Returns the character that begins at `index`, a byte offset.
#[doc(hidden)]
pub fn char_at(text: &str, index: usize) -> char
    requires boundary { IsCharBoundary text.now index }
    requires inside { index < length text.now }
    ensures { drop index text.now ≡ encode_utf8 result ++ drop (index + len_utf8 result) text.now }
{
    match text[index..].chars().next() {
        Some(ch) => ch,
        None => unreachable!(),
    }
}
