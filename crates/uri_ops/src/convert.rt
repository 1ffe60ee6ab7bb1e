//! Whether a value of one kind is one of another.
ghost use Rattle.std.specs.Prelude.{◌≡◌, ◌↔◌, ℕ, List, None, is_some, IsUtf8};
ghost use Rattle.std.specs.Result.{result_err};
ghost use Rattle.uri_parts.specs.Prelude.{IsOfKind, components, core_text, iri, iri_ref, uri, uri_ref};
ghost use Rattle.uri_ops.specs.Conversions.{first_past_ascii, missing_scheme_error, not_ascii_error, uri_conversion_error};

#[doc(hidden)]
pub mod encoded;

use thiserror::Error;
use uri_parts::core_text::Core;
use uri_parts::kind::Kind;

/// Why a value of one kind is none of another.
///
/// `rel/ref` is no `Uri`, for `NoScheme`, and `http://你好.example.com/` is none, for `NotAscii {
/// index: 7 }`.
#[derive(Clone, Copy, Debug, PartialEq, Eq, Error)]
pub enum ConvertError {
    /// There is no scheme, which a URI or an IRI needs (RFC 3986, section 3).
    #[error("scheme not present")]
    NoScheme,
    /// There is a character past ASCII, which no URI or URI reference has (RFC 3987, section 3.1).
    #[error("non-ASCII character at index {index}")]
    NotAscii {
        /// Where the first such character begins, as a byte offset.
        index: usize,
    },
}

/// Returns where the first character past ASCII begins, if there is one, for the error of a
/// conversion.
#[tactic(auto, unfolding(crate::specs::Conversions::first_past_ascii))]
fn first_past_ascii(text: &str) -> Option<usize>
    ensures { result ≡ first_past_ascii text.now }
{
    text.as_bytes().iter().position(|byte| *byte >= 128)
}

/// Checks that a text has a scheme.
///
/// # Errors
///
/// `NoScheme`, exactly if there is none.
#[doc(hidden)]
#[tactic(auto, unfolding(crate::specs::Conversions::missing_scheme_error))]
pub fn needs_scheme<K: Kind>(core: Core<K, &str>) -> Result<(), ConvertError>
    ensures { result_err result ≡ missing_scheme_error (core_text core.entry) }
{
    if core.has_scheme() {
        Ok(())
    } else {
        Err(ConvertError::NoScheme)
    }
}

/// Checks that a text has no character past ASCII.
///
/// # Errors
///
/// `NotAscii`, exactly if there is one, with the position of the first.
#[doc(hidden)]
#[tactic(auto, unfolding(crate::specs::Conversions::not_ascii_error))]
pub fn check_is_ascii(text: &str) -> Result<(), ConvertError>
    ensures { result_err result ≡ not_ascii_error text.now }
{
    match first_past_ascii(text) {
        Some(index) => Err(ConvertError::NotAscii { index }),
        None => Ok(()),
    }
}

/// Checks that an IRI reference is a URI.
///
/// # Errors
///
/// `NoScheme`, exactly if there is no scheme, and else `NotAscii`, exactly if there is a character
/// past ASCII.
#[doc(hidden)]
#[tactic(auto, unfolding(crate::specs::Conversions::uri_conversion_error, crate::specs::Conversions::missing_scheme_error))]
pub fn check_is_uri(text: &str, has_scheme: bool) -> Result<(), ConvertError>
    requires { has_scheme ≡ is_some (components text.now).scheme }
    ensures { result_err result ≡ uri_conversion_error text.now }
{
    if has_scheme {
        check_is_ascii(text)
    } else {
        Err(ConvertError::NoScheme)
    }
}

/// Conversions rely on this law: a reference is a URI, or an IRI, exactly if it has a scheme (RFC
/// 3986, sections 3 and 4.1).
#[doc(hidden)]
pub fn references_with_a_scheme_are_uris()
    ensures uri { (text : List ℕ) → IsOfKind uri_ref text
        → (missing_scheme_error text ≡ None ↔ IsOfKind uri text) }
    ensures iri { (text : List ℕ) → IsOfKind iri_ref text
        → (missing_scheme_error text ≡ None ↔ IsOfKind iri text) }
{}

/// Conversions rely on this law: an IRI is a URI, and an IRI reference a URI reference, exactly if
/// it has no character past ASCII (RFC 3987, section 3.1).
#[doc(hidden)]
pub fn ascii_iris_are_uris()
    ensures uri { (text : List ℕ) → IsUtf8 text → IsOfKind iri text
        → (not_ascii_error text ≡ None ↔ IsOfKind uri text) }
    ensures uri_ref { (text : List ℕ) → IsUtf8 text → IsOfKind iri_ref text
        → (not_ascii_error text ≡ None ↔ IsOfKind uri_ref text) }
    ensures both { (text : List ℕ) → IsUtf8 text → IsOfKind iri_ref text
        → (uri_conversion_error text ≡ None ↔ IsOfKind uri text) }
{}

/// Conversions rely on this law: a URI is an IRI, and a URI reference an IRI reference (RFC 3987,
/// section 3.1).
#[doc(hidden)]
pub fn uris_are_iris()
    ensures uri { (text : List ℕ) → IsUtf8 text → IsOfKind uri text → IsOfKind iri text }
    ensures uri_ref { (text : List ℕ) → IsUtf8 text → IsOfKind uri_ref text
        → IsOfKind iri_ref text }
    ensures reference { (text : List ℕ) → IsOfKind uri text → IsOfKind uri_ref text }
    ensures iri_reference { (text : List ℕ) → IsOfKind iri text → IsOfKind iri_ref text }
{}
