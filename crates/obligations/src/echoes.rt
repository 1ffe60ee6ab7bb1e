//! What is decoded is what was given.
ghost use Rattle.std.specs.Prelude.{◌≡◌, IfErr, IfOk, string_bytes};

use fluent_uri::laws;
use fluent_uri::pct_enc::encoder::{Data, Query};
use fluent_uri::pct_enc::{CowStr, DecodeError, EString};
use std::alloc::Global;

/// A caller percent-encodes a text as data of a query, and decodes it again: by the law alone it is
/// the same text.
#[tactic(auto)]
pub fn echoed_by_the_law(alloc: Global, text: &str) -> Result<String, DecodeError>
    ensures text { IfOk result (λ s. string_bytes s ≡ text.now) }
    ensures error { IfErr result (λ e. e ≡ DecodeError.OutOfMemory) }
{
    laws::decoding_inverts_encoding();
    let mut encoded = EString::<Query>::new(alloc);
    encoded.encode_str::<Data>(text)?;
    match encoded.as_estr().decode().to_string(alloc)? {
        CowStr::Borrowed(text) => Ok(String::from_str(alloc, text)?),
        CowStr::Owned(text) => Ok(text),
    }
}
