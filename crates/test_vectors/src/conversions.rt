//! What is asked of values of the four kinds as others, and with other fragments.

use crate::fields::{RowError, Words};
use crate::kinds::Kind;
use crate::references::{parsed, say_error};
use fluent_uri::pct_enc::EStr;
use fluent_uri::pct_enc::encoder::Encoder;
use fluent_uri::{ConvertError, Iri, IriRef, Reference, Uri, UriRef};
use std::alloc::{AllocError, Global};
use uri_parts::kind::{self, IriKind, IriRefKind, UriRefKind};

const NO_CONVERSION: RowError = RowError::Malformed("no such conversion");

/// Calls `narrowed` for the conversion to a kind. It is a macro, since the calls differ by type.
macro_rules! narrowed_to {
    ($kind:ident; $alloc:expr, $value:expr, $owned:expr, $words:expr) => {
        narrowed($alloc, $value, $kind::try_from($value), $kind::try_from($owned), $words)
    };
}

/// Appends to a row's result a URI reference or an IRI as another kind, or the error.
macro_rules! convert_middle {
    ($alloc:expr, $value:expr, $to:expr, $words:expr) => {{
        let value = $value;
        let owned = value.to_owned($alloc)?;
        match $to {
            Kind::Uri => narrowed_to!(Uri; $alloc, value, owned, $words),
            Kind::IriRef => widened(IriRef::from(value), IriRef::from(owned), $words),
            _ => Err(NO_CONVERSION),
        }
    }};
}

/// Appends to a row's result the text as another kind, borrowed and, where it differs, owned.
pub(crate) fn convert(
    alloc: Global,
    from: Kind,
    to: Kind,
    text: &str,
    words: &mut Words,
) -> Result<(), RowError> {
    match from {
        Kind::Uri => convert_uri(alloc, parsed(text)?, to, words),
        Kind::UriRef => convert_middle!(alloc, parsed::<UriRefKind>(text)?, to, words),
        Kind::Iri => convert_middle!(alloc, parsed::<IriKind>(text)?, to, words),
        Kind::IriRef => convert_iri_ref(alloc, parsed(text)?, to, words),
    }
}

/// Appends to a row's result a URI as a wider kind.
fn convert_uri(
    alloc: Global,
    value: Uri<&str>,
    to: Kind,
    words: &mut Words,
) -> Result<(), RowError> {
    let owned = value.to_owned(alloc)?;
    match to {
        Kind::UriRef => widened(UriRef::from(value), UriRef::from(owned), words),
        Kind::Iri => widened(Iri::from(value), Iri::from(owned), words),
        Kind::IriRef => widened(IriRef::from(value), IriRef::from(owned), words),
        Kind::Uri => Err(NO_CONVERSION),
    }
}

/// Appends to a row's result an IRI reference as another kind, or the error.
fn convert_iri_ref(
    alloc: Global,
    value: IriRef<&str>,
    to: Kind,
    words: &mut Words,
) -> Result<(), RowError> {
    let owned = value.to_owned(alloc)?;
    match to {
        Kind::Uri => narrowed_to!(Uri; alloc, value, owned, words),
        Kind::UriRef => narrowed_to!(UriRef; alloc, value, owned, words),
        Kind::Iri => narrowed_to!(Iri; alloc, value, owned, words),
        Kind::IriRef => Err(NO_CONVERSION),
    }
}

/// Appends to a row's result the text of a conversion that never fails.
fn widened<K: kind::Kind>(
    value: Reference<K, &str>,
    owned: Reference<K, String>,
    words: &mut Words,
) -> Result<(), RowError> {
    words.text(value.as_str())?;
    Ok(words.unless_said("owned", owned.as_str())?)
}

/// Appends to a row's result the text of a conversion or its error, and what differs where the
/// value is owned.
fn narrowed<S: kind::Kind, K: kind::Kind>(
    alloc: Global,
    value: Reference<S, &str>,
    narrower: Result<Reference<K, &str>, ConvertError>,
    owned: Result<Reference<K, String>, (ConvertError, Reference<S, String>)>,
    words: &mut Words,
) -> Result<(), RowError> {
    match (narrower, owned) {
        (Ok(narrower), Ok(owned)) => widened(narrower, owned, words),
        (Err(error), Err((of_owned, returned))) => {
            let is_same = of_owned == error && returned.as_str() == value.as_str();
            refused(alloc, error, is_same, words)
        }
        _ => Ok(words.verbatim("otherwise of an owned value")?),
    }
}

/// Appends to a row's result the error of a conversion, and whether that of an owned value differs.
fn refused(
    alloc: Global,
    error: ConvertError,
    is_same: bool,
    words: &mut Words,
) -> Result<(), RowError> {
    say_error(alloc, &error, words)?;
    Ok(words.unless(is_same, "but not of an owned value")?)
}

/// Appends to a row's result the URI, or the URI reference, of an IRI or an IRI reference, borrowed
/// and owned.
pub(crate) fn to_uri(
    alloc: Global,
    kind: Kind,
    text: &str,
    words: &mut Words,
) -> Result<(), RowError> {
    match kind {
        Kind::Iri => {
            let value = parsed::<IriKind>(text)?;
            words.text(value.to_uri(alloc)?.as_str())?;
            let encoded = uri_of_owned(alloc, value)?;
            Ok(words.unless_said("owned", encoded.as_str())?)
        }
        Kind::IriRef => {
            let value = parsed::<IriRefKind>(text)?;
            words.text(value.to_uri_ref(alloc)?.as_str())?;
            let encoded = uri_ref_of_owned(alloc, value)?;
            Ok(words.unless_said("owned", encoded.as_str())?)
        }
        _ => Err(RowError::Malformed("not an IRI")),
    }
}

/// Returns the URI of an owned copy of an IRI, which a row compares with that of the IRI.
fn uri_of_owned(alloc: Global, value: Iri<&str>) -> Result<Uri<String>, AllocError> {
    value.to_owned(alloc)?.to_uri(alloc)
}

/// Returns the URI reference of an owned copy of an IRI reference, for a row to compare.
fn uri_ref_of_owned(alloc: Global, value: IriRef<&str>) -> Result<UriRef<String>, AllocError> {
    value.to_owned(alloc)?.to_uri_ref(alloc)
}

/// Appends to a row's result the text without a fragment.
pub(crate) fn strip_fragment<K: kind::Kind>(
    alloc: Global,
    text: &str,
    words: &mut Words,
) -> Result<(), RowError> {
    let value = parsed::<K>(text)?;
    words.text(value.strip_fragment().as_str())?;
    let owned = value.to_owned(alloc)?;
    Ok(words.unless_said("owned", owned.strip_fragment().as_str())?)
}

/// Appends to a row's result the text with another fragment, given as `#` and its text, or with
/// `none`.
pub(crate) fn with_fragment<K: kind::Kind>(
    alloc: Global,
    text: &str,
    given: &str,
    words: &mut Words,
) -> Result<(), RowError> {
    let value = parsed::<K>(text)?;
    let fragment = fragment(given)?;
    words.text(value.with_fragment(alloc, fragment)?.as_str())?;
    let made = copied(alloc, value, fragment)?;
    words.unless_said("owned", made.as_str())?;
    replace_fragment(alloc, value, fragment, words)
}

/// Returns a copy of an owned value with another fragment, for a row to compare.
fn copied<K: kind::Kind>(
    alloc: Global,
    value: Reference<K, &str>,
    fragment: Option<EStr<'_, K::FragmentE>>,
) -> Result<Reference<K, String>, AllocError> {
    value.to_owned(alloc)?.with_fragment(alloc, fragment)
}

/// Appends to a row's result what differs where the fragment of an owned value is replaced.
fn replace_fragment<K: kind::Kind>(
    alloc: Global,
    value: Reference<K, &str>,
    fragment: Option<EStr<'_, K::FragmentE>>,
    words: &mut Words,
) -> Result<(), RowError> {
    let mut owned = value.to_owned(alloc)?;
    owned.set_fragment(fragment)?;
    let has_both = owned.path() == value.path() && owned.fragment() == fragment;
    words.unless_said("set", owned.as_str())?;
    Ok(words.unless(has_both, "but not its components")?)
}

/// Returns the fragment that a row gives as `#` and its text, or none.
fn fragment<E: Encoder>(given: &str) -> Result<Option<EStr<'_, E>>, RowError> {
    match given.strip_prefix('#') {
        Some(text) => Ok(Some(EStr::new(text).ok_or(RowError::Malformed("not a fragment"))?)),
        None => Ok(None),
    }
}
