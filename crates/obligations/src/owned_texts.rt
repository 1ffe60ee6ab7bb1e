//! Encoded texts that a caller holds or lengthens (RFC 3986, section 2.1).
#![tactic(auto)]

ghost use Rattle.std.specs.Prelude.{◌≡◌, ◌==◌, [], length, string_bytes};
ghost use Rattle.fluent_uri.specs.Prelude.{owned_text};

use fluent_uri::pct_enc::encoder::{Encoder, PathEncoder};
use fluent_uri::pct_enc::{EStr, EString};

/// A caller learns whether an encoded text is short and has nothing to decode.
pub fn is_short_and_plain<E: Encoder>(text: EStr<'_, E>) -> bool {
    text.len() < 64 && !text.is_empty() && text.is_unencoded()
}

/// A caller learns whether a path of any kind begins with `/`, by either test.
pub fn is_rooted<E: PathEncoder>(path: EStr<'_, E>) -> bool {
    path.is_absolute() && !path.is_rootless()
}

/// A caller empties a text, and uses its memory again.
pub fn emptied<E: Encoder>(text: &mut EString<E>) -> bool
    ensures result { result ≡ (length (owned_text text.new) == 0) }
    ensures text { owned_text text.new ≡ [] }
{
    text.clear();
    text.is_empty()
}

/// A caller reads a text, and hands over its memory.
pub fn handed_over<E: Encoder>(text: EString<E>) -> String
    ensures { string_bytes result ≡ owned_text text }
{
    let _length = text.as_str().len();
    text.into_string()
}
