//! Percent-encoded texts of which some items are taken (RFC 3986, section 2.1).
ghost use Rattle.std.specs.Prelude.{◌≡◌, IfOk, drop, flat_map};
ghost use Rattle.fluent_uri.specs.Prelude.{chunk_bytes, chunks, cow_items, text_of};

use fluent_uri::pct_enc::encoder::Path;
use fluent_uri::pct_enc::{CowSlice, EStr};
use std::alloc::{AllocError, Global};

/// A caller proves that, after the first chunk of a path is taken, the rest decodes to the bytes of
/// the chunks that are left.
///
/// # Errors
///
/// Only if allocation fails.
pub fn bytes_after_first<'a>(
    alloc: Global,
    text: EStr<'a, Path>,
) -> Result<CowSlice<'a, u8>, AllocError>
    ensures { IfOk result (λ bytes.
        cow_items bytes ≡ flat_map chunk_bytes (drop 1 (chunks (text_of text.entry)))) }
{
    let mut decode = text.decode();
    let _first = decode.next();
    decode.to_bytes(alloc)
}
