//! What is asked of values of the four kinds.

use crate::fields::{RowError, Words};
use crate::parsed::{
    authority_of, say_authority, say_components, say_host, say_parse_error, say_port, say_socket,
};
use fluent_uri::component::{Authority, HostOf, Scheme};
use fluent_uri::kind::RefKind;
use fluent_uri::normalize::{NormalizeError, Normalizer, SchemeRules};
use fluent_uri::pct_enc::encoder::Encoder;
use fluent_uri::resolve::{ResolveError, Resolver};
use fluent_uri::{ParseError, Reference};
use std::alloc::Global;
use std::convert::{AsStr, TryFrom};
use std::fmt::Debug;
use uri_parts::kind::{IriKind, IriRefKind, Kind, UriRefKind};

/// Parses a row's text as its kind, or returns why the row is malformed.
pub(crate) fn parsed<K: Kind>(text: &str) -> Result<Reference<K, &str>, RowError> {
    match Reference::<K, &str>::parse(text) {
        Ok(value) => Ok(value),
        Err(_) => Err(RowError::Malformed("a text is not of its kind")),
    }
}

/// Makes a scheme of a row's text, or returns why the row is malformed.
pub(crate) fn scheme(text: &str) -> Result<Scheme<'_>, RowError> {
    Scheme::new(text).ok_or(RowError::Malformed("not a scheme"))
}

/// Appends to a row's result what a value of the text returns, or the error of the text.
pub(crate) fn evaluate_text<K: Kind>(
    alloc: Global,
    operation: &str,
    text: &str,
    words: &mut Words,
) -> Result<(), RowError> {
    match Reference::<K, &str>::try_from(text) {
        Ok(value) => match operation {
            "parse" => {
                say_components(&value, words)?;
                Ok(words.unless(value.as_str() == text, "of another text")?)
            }
            _ => of_authority(alloc, operation, authority_of(value)?, words),
        },
        Err(error) => match operation {
            "ipv6" => Ok(words.verbatim("none")?),
            _ => say_message(alloc, error, words),
        },
    }
}

/// Appends to a row's result the message of a parse error.
fn say_message(alloc: Global, error: ParseError, words: &mut Words) -> Result<(), RowError> {
    Ok(words.verbatim(format!(in alloc; "error: {error}")?.as_str())?)
}

/// Appends to a row's result what the row asks of an authority.
fn of_authority<U: Encoder, R: Encoder>(
    alloc: Global,
    operation: &str,
    authority: Authority<'_, U, R>,
    words: &mut Words,
) -> Result<(), RowError> {
    match operation {
        "authority" => Ok(say_authority(authority, words)?),
        "host" => Ok(say_host(alloc, authority, words)?),
        "ipv6" => match authority.host_parsed() {
            HostOf::Ipv6(_) => Ok(say_host(alloc, authority, words)?),
            _ => Ok(words.verbatim("none")?),
        },
        "port" => Ok(say_port(alloc, authority, words)?),
        _ => Ok(say_socket(alloc, authority, words)?),
    }
}

/// Appends to a row's result the normal form of a text, or the error of the text.
pub(crate) fn normalize<K: Kind, S: SchemeRules>(
    alloc: Global,
    normalizer: Normalizer<S>,
    text: &str,
    words: &mut Words,
) -> Result<(), RowError> {
    match Reference::<K, &str>::try_from(text) {
        Ok(value) => normalized(alloc, &normalizer, value, words),
        Err(error) => say_message(alloc, error, words),
    }
}

/// Appends to a row's result the normal form, and that of the normal form where it is another.
fn normalized<K: Kind, S: SchemeRules>(
    alloc: Global,
    normalizer: &Normalizer<S>,
    value: Reference<K, &str>,
    words: &mut Words,
) -> Result<(), RowError> {
    match normalizer.normalize(alloc, &value) {
        Ok(normal) => {
            words.text(normal.as_str())?;
            normalized_again(alloc, normalizer, &normal, words)
        }
        Err(error) => say_normalize_error(alloc, error, words),
    }
}

/// Appends to a row's result the normal form of a normal form where it is another.
fn normalized_again<K: Kind, S: SchemeRules>(
    alloc: Global,
    normalizer: &Normalizer<S>,
    normal: &Reference<K, String>,
    words: &mut Words,
) -> Result<(), RowError> {
    match normalizer.normalize(alloc, normal) {
        Ok(again) => Ok(words.unless_said("again", again.as_str())?),
        Err(error) => say_normalize_error(alloc, error, words),
    }
}

/// Appends to a row's result the error of normalising.
fn say_normalize_error(
    alloc: Global,
    error: NormalizeError,
    words: &mut Words,
) -> Result<(), RowError> {
    match error {
        NormalizeError::OutOfMemory => Err(RowError::OutOfMemory),
        NormalizeError::PathUnderflow => say_error(alloc, &error, words),
    }
}

/// Appends to a row's result the word `error` and the name of the error.
pub(crate) fn say_error<E: Debug>(
    alloc: Global,
    error: &E,
    words: &mut Words,
) -> Result<(), RowError> {
    words.verbatim(format!(in alloc; "error {error:?}")?.as_str())?;
    Ok(())
}

/// Appends to a row's result the kind and the index of the error of a text, and what differs where
/// the text is owned.
pub(crate) fn error<K: Kind>(alloc: Global, text: &str, words: &mut Words) -> Result<(), RowError> {
    let Err(error) = Reference::<K, &str>::try_from(text) else {
        return Ok(words.verbatim("none")?);
    };
    say_parse_error(alloc, error, words)?;
    let owned = String::from_str(alloc, text)?;
    let is_same = match Reference::<K, String>::try_from(owned) {
        Err((of_owned, returned)) => of_owned == error && returned.as_str() == text,
        Ok(_value) => false,
    };
    Ok(words.unless(is_same, "but not of an owned text")?)
}

/// Appends to a row's result the target of a reference, or the error.
pub(crate) fn resolve<K: RefKind>(
    alloc: Global,
    allow_underflow: bool,
    base: &str,
    reference: &str,
    words: &mut Words,
) -> Result<(), RowError> {
    let resolver = Resolver::with_base(parsed::<K::Base>(base)?);
    let resolver = resolver.allow_path_underflow(allow_underflow);
    say_target(
        alloc,
        resolver.resolve(alloc, &parsed::<K>(reference)?),
        words,
    )
}

/// Appends to a row's result the normal form of a target under the rules, or the error.
pub(crate) fn resolve_normalized<K: RefKind, S: SchemeRules>(
    alloc: Global,
    rules: S,
    base: &str,
    reference: &str,
    words: &mut Words,
) -> Result<(), RowError> {
    let resolver = Resolver::with_base(parsed::<K::Base>(base)?);
    let normalizer = Normalizer::new().scheme_rules_with(rules);
    let target = resolver.resolve_normalized(alloc, &parsed::<K>(reference)?, &normalizer);
    say_target(alloc, target, words)
}

/// Appends to a row's result the target that a resolver returned, or the error.
fn say_target<K: Kind>(
    alloc: Global,
    target: Result<Reference<K, String>, ResolveError>,
    words: &mut Words,
) -> Result<(), RowError> {
    match target {
        Ok(target) => Ok(words.text(target.as_str())?),
        Err(ResolveError::OutOfMemory) => Err(RowError::OutOfMemory),
        Err(error) => say_error(alloc, &error, words),
    }
}

/// Appends to a row's result the normal form of the target, and what differs if it is made at once
/// or of normal forms.
pub(crate) fn swap<K: RefKind>(
    alloc: Global,
    base: &str,
    reference: &str,
    words: &mut Words,
) -> Result<(), RowError> {
    let (base, reference) = (parsed::<K::Base>(base)?, parsed::<K>(reference)?);
    say_normal_targets(alloc, base, &reference, words)?;
    let (base, reference) = (base.normalize(alloc)?, reference.normalize(alloc)?);
    say_normal_targets(alloc, base, &reference, words)
}

/// Appends to a row's result the normal form of the target, made of the target and at once, where
/// it is not what the result has.
fn say_normal_targets<K: RefKind, B: AsStr + Drop, T: AsStr>(
    alloc: Global,
    base: Reference<K::Base, B>,
    reference: &Reference<K, T>,
    words: &mut Words,
) -> Result<(), RowError> {
    let resolver = Resolver::with_base(base);
    let target = resolver.resolve(alloc, reference)?.normalize(alloc)?;
    words.or_same("of-target", target.as_str())?;
    let target = resolver.resolve_normalized(alloc, reference, &Normalizer::new())?;
    Ok(words.or_same("at-once", target.as_str())?)
}

/// Appends to a row's result what `swap` gives of the URIs that base and reference are converted
/// to.
pub(crate) fn swap_as_uris(
    alloc: Global,
    base: &str,
    reference: &str,
    words: &mut Words,
) -> Result<(), RowError> {
    let (base, reference) = (parsed::<IriKind>(base)?, parsed::<IriRefKind>(reference)?);
    let (base, reference) = (base.to_uri(alloc)?, reference.to_uri_ref(alloc)?);
    swap::<UriRefKind>(alloc, base.as_str(), reference.as_str(), words)
}
