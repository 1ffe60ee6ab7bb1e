//! Conversions between the kinds (RFC 3986, sections 3 and 4.1; RFC 3987, section 3.1).
ghost use Rattle.std.specs.Prelude.{◌≡◌, IfOk};
ghost use Rattle.uri_parts.specs.Prelude.{iri, iri_ref, uri, uri_ref};
ghost use Rattle.uri_ops.specs.Prelude.{AreEquivalent, Converts, ConvertsOwned, Rules, encode_past_ascii, meaning_under, missing_scheme_error, not_ascii_error, uri_conversion_error};
ghost use Rattle.fluent_uri.specs.References.{reference_text};

use crate::reference::Reference;
use crate::{Iri, IriRef, Uri, UriRef};
use std::alloc::{AllocError, Global};
use std::convert::{AsStr, TryFrom};
use uri_ops::convert::encoded::encoded;
use uri_ops::convert::{self, ConvertError};
use uri_ops::traits::RiMaybeRef;
use uri_parts::core_text::Core;

#[tactic(auto, using(uri_parts::proofs::TextKinds::KindSets::uri_is_uri_ref))]
impl<T: AsStr> From<Uri<T>> for UriRef<T> {
    ghost from_gives = { λ value reference. reference_text reference ≡ reference_text value };

    /// Converts a URI to a URI reference over the same text.
    fn from(value: Uri<T>) -> UriRef<T> {
        Reference::of_core(value.into_core().into_kind())
    }
}

#[tactic(auto, using(uri_ops::proofs::TextKinds::Conversions::uri_ref_with_scheme_is_uri))]
impl<'a> TryFrom<UriRef<&'a str>> for Uri<&'a str> {
    type Error = ConvertError;

    ghost try_from_gives = { λ value result.
        Converts uri reference_text (reference_text value)
        (missing_scheme_error (reference_text value)) result };

    /// Converts a URI reference to a URI over the same text, or returns an error.
    ///
    /// # Errors
    ///
    /// Returns `NoScheme` exactly if the reference has no scheme.
    fn try_from(value: UriRef<&'a str>) -> Result<Uri<&'a str>, ConvertError> {
        convert::needs_scheme(value.core())?;
        Ok(Reference::of_core(value.into_core().into_kind()))
    }
}

#[tactic(auto, using(uri_ops::proofs::TextKinds::Conversions::uri_ref_with_scheme_is_uri))]
impl TryFrom<UriRef<String>> for Uri<String> {
    type Error = (ConvertError, UriRef<String>);

    ghost try_from_gives = { λ value result.
        ConvertsOwned uri reference_text (reference_text value)
        (missing_scheme_error (reference_text value)) value result };

    /// Converts a URI reference to a URI over the same text, or returns an error.
    ///
    /// # Errors
    ///
    /// Returns `NoScheme` exactly if the reference has no scheme. The reference is returned with
    /// the error.
    fn try_from(value: UriRef<String>) -> Result<Uri<String>, (ConvertError, UriRef<String>)> {
        if let Err(error) = convert::needs_scheme(value.core()) {
            return Err((error, value));
        }
        Ok(Reference::of_core(value.into_core().into_kind()))
    }
}

#[tactic(auto, using(uri_ops::proofs::TextKinds::Conversions::uri_is_iri))]
impl<T: AsStr> From<Uri<T>> for Iri<T> {
    ghost from_gives = { λ value wider. reference_text wider ≡ reference_text value };

    /// Converts a URI to an IRI over the same text.
    fn from(value: Uri<T>) -> Iri<T> {
        Reference::of_core(value.into_core().into_kind())
    }
}

#[tactic(auto, using(uri_ops::proofs::TextKinds::Conversions::uri_widening))]
impl<T: AsStr> From<Uri<T>> for IriRef<T> {
    ghost from_gives = { λ value wider. reference_text wider ≡ reference_text value };

    /// Converts a URI to an IRI reference over the same text.
    fn from(value: Uri<T>) -> IriRef<T> {
        Reference::of_core(value.into_core().into_kind())
    }
}

#[tactic(auto, using(uri_ops::proofs::TextKinds::Conversions::uri_ref_is_iri_ref))]
impl<T: AsStr> From<UriRef<T>> for IriRef<T> {
    ghost from_gives = { λ value wider. reference_text wider ≡ reference_text value };

    /// Converts a URI reference to an IRI reference over the same text.
    fn from(value: UriRef<T>) -> IriRef<T> {
        Reference::of_core(value.into_core().into_kind())
    }
}

#[tactic(auto, using(uri_parts::proofs::TextKinds::KindSets::iri_is_iri_ref))]
impl<T: AsStr> From<Iri<T>> for IriRef<T> {
    ghost from_gives = { λ value wider. reference_text wider ≡ reference_text value };

    /// Converts an IRI to an IRI reference over the same text.
    fn from(value: Iri<T>) -> IriRef<T> {
        Reference::of_core(value.into_core().into_kind())
    }
}

#[tactic(auto, using(uri_ops::proofs::TextKinds::Conversions::iri_ref_with_scheme_is_iri))]
impl<'a> TryFrom<IriRef<&'a str>> for Iri<&'a str> {
    type Error = ConvertError;

    ghost try_from_gives = { λ value result.
        Converts iri reference_text (reference_text value)
        (missing_scheme_error (reference_text value)) result };

    /// Converts an IRI reference to an IRI over the same text, or returns an error.
    ///
    /// # Errors
    ///
    /// Returns `NoScheme` exactly if the reference has no scheme.
    fn try_from(value: IriRef<&'a str>) -> Result<Iri<&'a str>, ConvertError> {
        convert::needs_scheme(value.core())?;
        Ok(Reference::of_core(value.into_core().into_kind()))
    }
}

#[tactic(auto, using(uri_ops::proofs::TextKinds::Conversions::iri_ref_with_scheme_is_iri))]
impl TryFrom<IriRef<String>> for Iri<String> {
    type Error = (ConvertError, IriRef<String>);

    ghost try_from_gives = { λ value result.
        ConvertsOwned iri reference_text (reference_text value)
        (missing_scheme_error (reference_text value)) value result };

    /// Converts an IRI reference to an IRI over the same text, or returns an error.
    ///
    /// # Errors
    ///
    /// Returns `NoScheme` exactly if the reference has no scheme. The reference is returned with
    /// the error.
    fn try_from(value: IriRef<String>) -> Result<Iri<String>, (ConvertError, IriRef<String>)> {
        if let Err(error) = convert::needs_scheme(value.core()) {
            return Err((error, value));
        }
        Ok(Reference::of_core(value.into_core().into_kind()))
    }
}

#[tactic(auto, using(uri_ops::proofs::TextKinds::Conversions::ascii_iri_is_uri))]
impl<'a> TryFrom<Iri<&'a str>> for Uri<&'a str> {
    type Error = ConvertError;

    ghost try_from_gives = { λ value result.
        Converts uri reference_text (reference_text value)
        (not_ascii_error (reference_text value)) result };

    /// Converts an IRI to a URI over the same text, or returns an error.
    ///
    /// # Errors
    ///
    /// Returns `NotAscii` exactly if the IRI has a character past ASCII.
    fn try_from(value: Iri<&'a str>) -> Result<Uri<&'a str>, ConvertError> {
        convert::check_is_ascii(value.as_str())?;
        Ok(Reference::of_core(value.into_core().into_kind()))
    }
}

#[tactic(auto, using(uri_ops::proofs::TextKinds::Conversions::ascii_iri_is_uri))]
impl TryFrom<Iri<String>> for Uri<String> {
    type Error = (ConvertError, Iri<String>);

    ghost try_from_gives = { λ value result.
        ConvertsOwned uri reference_text (reference_text value)
        (not_ascii_error (reference_text value)) value result };

    /// Converts an IRI to a URI over the same text, or returns an error.
    ///
    /// # Errors
    ///
    /// Returns `NotAscii` exactly if the IRI has a character past ASCII. The IRI is returned with
    /// the error.
    fn try_from(value: Iri<String>) -> Result<Uri<String>, (ConvertError, Iri<String>)> {
        if let Err(error) = convert::check_is_ascii(value.as_str()) {
            return Err((error, value));
        }
        Ok(Reference::of_core(value.into_core().into_kind()))
    }
}

#[tactic(auto, using(uri_ops::proofs::TextKinds::Conversions::ascii_iri_ref_is_uri_ref))]
impl<'a> TryFrom<IriRef<&'a str>> for UriRef<&'a str> {
    type Error = ConvertError;

    ghost try_from_gives = { λ value result.
        Converts uri_ref reference_text (reference_text value)
        (not_ascii_error (reference_text value)) result };

    /// Converts an IRI reference to a URI reference over the same text, or returns an error.
    ///
    /// # Errors
    ///
    /// Returns `NotAscii` exactly if the reference has a character past ASCII.
    fn try_from(value: IriRef<&'a str>) -> Result<UriRef<&'a str>, ConvertError> {
        convert::check_is_ascii(value.as_str())?;
        Ok(Reference::of_core(value.into_core().into_kind()))
    }
}

#[tactic(auto, using(uri_ops::proofs::TextKinds::Conversions::ascii_iri_ref_is_uri_ref))]
impl TryFrom<IriRef<String>> for UriRef<String> {
    type Error = (ConvertError, IriRef<String>);

    ghost try_from_gives = { λ value result.
        ConvertsOwned uri_ref reference_text (reference_text value)
        (not_ascii_error (reference_text value)) value result };

    /// Converts an IRI reference to a URI reference over the same text, or returns an error.
    ///
    /// # Errors
    ///
    /// Returns `NotAscii` exactly if the reference has a character past ASCII. The reference is
    /// returned with the error.
    fn try_from(value: IriRef<String>) -> Result<UriRef<String>, (ConvertError, IriRef<String>)> {
        if let Err(error) = convert::check_is_ascii(value.as_str()) {
            return Err((error, value));
        }
        Ok(Reference::of_core(value.into_core().into_kind()))
    }
}

#[tactic(auto, using(uri_ops::proofs::TextKinds::Conversions::ascii_iri_ref_with_scheme_is_uri))]
impl<'a> TryFrom<IriRef<&'a str>> for Uri<&'a str> {
    type Error = ConvertError;

    ghost try_from_gives = { λ value result.
        Converts uri reference_text (reference_text value)
        (uri_conversion_error (reference_text value)) result };

    /// Converts an IRI reference to a URI over the same text, or returns an error.
    ///
    /// # Errors
    ///
    /// Returns `NoScheme` exactly if the reference has no scheme, and otherwise `NotAscii` exactly
    /// if it has a character past ASCII.
    fn try_from(value: IriRef<&'a str>) -> Result<Uri<&'a str>, ConvertError> {
        convert::check_is_uri(value.as_str(), value.has_scheme())?;
        Ok(Reference::of_core(value.into_core().into_kind()))
    }
}

#[tactic(auto, using(uri_ops::proofs::TextKinds::Conversions::ascii_iri_ref_with_scheme_is_uri))]
impl TryFrom<IriRef<String>> for Uri<String> {
    type Error = (ConvertError, IriRef<String>);

    ghost try_from_gives = { λ value result.
        ConvertsOwned uri reference_text (reference_text value)
        (uri_conversion_error (reference_text value)) value result };

    /// Converts an IRI reference to a URI over the same text, or returns an error.
    ///
    /// # Errors
    ///
    /// Returns `NoScheme` exactly if the reference has no scheme, and otherwise `NotAscii` exactly
    /// if it has a character past ASCII. The reference is returned with the error.
    fn try_from(value: IriRef<String>) -> Result<Uri<String>, (ConvertError, IriRef<String>)> {
        if let Err(error) = convert::check_is_uri(value.as_str(), value.has_scheme()) {
            return Err((error, value));
        }
        Ok(Reference::of_core(value.into_core().into_kind()))
    }
}

#[tactic(auto, using(uri_ops::proofs::TextKinds::Conversions::iri_encoding))]
impl<T: AsStr> Iri<T> {
    /// Converts the IRI to a URI (RFC 3987, section 3.1).
    ///
    /// Each character past ASCII is percent-encoded: each byte of its UTF-8 becomes `%XX`, with
    /// upper-case digits. Everything else is unchanged. A host name is percent-encoded too, and not
    /// written in Punycode.
    ///
    /// As an IRI, the URI is equivalent to this one, under any rules of schemes.
    ///
    /// # Errors
    ///
    /// Returns an error only if allocation fails.
    ///
    /// # Examples
    ///
    /// `http://example.com/é` becomes `http://example.com/%C3%A9`.
    ///
    /// ```
    /// pub fn encoded(alloc: Global, value: &Iri<String>) -> Result<Uri<String>, AllocError> {
    ///     value.to_uri(alloc)
    /// }
    /// ```
    pub fn to_uri(&self, alloc: Global) -> Result<Uri<String>, AllocError>
        ensures text { IfOk result (λ encoded.
            reference_text encoded ≡ encode_past_ascii (reference_text self.now)) }
        ensures meaning { IfOk result (λ encoded.
            AreEquivalent iri (reference_text encoded) (reference_text self.now)) }
        ensures under { (rules : Rules) → IfOk result (λ encoded.
            meaning_under iri rules (reference_text encoded)
            ≡ meaning_under iri rules (reference_text self.now)) }
    {
        let (text, positions) = encoded(alloc, self)?;
        Ok(Uri::<String>::of_core(Core::new(text, positions)))
    }
}

#[tactic(auto, using(uri_ops::proofs::TextKinds::Conversions::iri_ref_encoding))]
impl<T: AsStr> IriRef<T> {
    /// Converts the IRI reference to a URI reference (RFC 3987, section 3.1).
    ///
    /// Each character past ASCII is percent-encoded: each byte of its UTF-8 becomes `%XX`, with
    /// upper-case digits. Everything else is unchanged. A host name is percent-encoded too, and not
    /// written in Punycode.
    ///
    /// As an IRI reference, the result is equivalent to this one, under any rules of schemes.
    ///
    /// `é?q` becomes `%C3%A9?q`.
    ///
    /// # Errors
    ///
    /// Returns an error only if allocation fails.
    pub fn to_uri_ref(&self, alloc: Global) -> Result<UriRef<String>, AllocError>
        ensures text { IfOk result (λ encoded.
            reference_text encoded ≡ encode_past_ascii (reference_text self.now)) }
        ensures meaning { IfOk result (λ encoded.
            AreEquivalent iri_ref (reference_text encoded) (reference_text self.now)) }
        ensures under { (rules : Rules) → IfOk result (λ encoded.
            meaning_under iri_ref rules (reference_text encoded)
            ≡ meaning_under iri_ref rules (reference_text self.now)) }
    {
        let (text, positions) = encoded(alloc, self)?;
        Ok(UriRef::<String>::of_core(Core::new(text, positions)))
    }
}
