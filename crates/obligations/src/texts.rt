//! Texts that were tested, and empty ones.
#![tactic(auto)]

ghost use Rattle.std.specs.Prelude.{◌≡◌, []};
ghost use Rattle.fluent_uri.specs.Prelude.{authority_text, text_of};

use fluent_uri::component::{Authority, Scheme};
use fluent_uri::pct_enc::EStr;
use fluent_uri::pct_enc::encoder::Encoder;

/// A caller makes an encoded text after testing that it is valid for the encoder, and else the
/// empty one.
pub fn valid_or_empty<E: Encoder>(text: &str) -> EStr<'_, E> {
    if EStr::<E>::new(text).is_some() {
        EStr::new_or_panic(text)
    } else {
        EStr::EMPTY
    }
}

/// A caller makes the empty text, of any encoder, by `default`.
pub fn empty<E: Encoder>() -> EStr<'static, E>
    ensures { text_of result ≡ [] }
{
    EStr::default()
}

/// A caller makes the empty authority by `new_empty`.
pub fn empty_authority() -> Authority<'static>
    ensures { authority_text result ≡ [] }
{
    Authority::new_empty()
}

/// A caller makes a scheme after testing that the text is one.
pub fn scheme_if_one(text: &str) -> Option<Scheme<'_>> {
    if Scheme::new(text).is_some() {
        Some(Scheme::new_or_panic(text))
    } else {
        None
    }
}
