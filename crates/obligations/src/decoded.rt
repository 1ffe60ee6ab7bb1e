//! Texts and bytes that are decoded (RFC 3986, section 2.1).
#![tactic(auto)]

ghost use Rattle.std.specs.Prelude.{◌≡◌, IfOk};
ghost use Rattle.fluent_uri.specs.Prelude.{cow_items, cow_text, decoded};

use fluent_uri::pct_enc::{CowSlice, CowStr, Decode, DecodeError, DecodedChunk};
use std::alloc::{AllocError, Global};

/// A caller gets the bytes that a text decodes to.
pub fn bytes<'a>(alloc: Global, text: Decode<'a>) -> Result<CowSlice<'a, u8>, AllocError>
    ensures { IfOk result (λ bytes. cow_items bytes ≡ decoded text.entry) }
{
    text.to_bytes(alloc)
}

/// A caller gets the text that a text decodes to.
///
/// # Errors
///
/// Those of `to_string`.
pub fn text<'a>(alloc: Global, text: Decode<'a>) -> Result<CowStr<'a>, DecodeError>
    ensures { IfOk result (λ found. cow_text found ≡ decoded text.entry) }
{
    text.to_string(alloc)
}

/// A caller learns whether a text begins with an octet, by its first chunk.
pub fn begins_with_an_octet(mut text: Decode<'_>) -> bool {
    match text.next() {
        Some(DecodedChunk::PctDecoded(_)) => true,
        Some(DecodedChunk::Unencoded(_)) => false,
        None => false,
    }
}
