//! IRIs, and the URIs that they are converted to (RFC 3987, section 3.1).
ghost use Rattle.std.specs.Prelude.{◌≡◌, IfOk, true};
ghost use Rattle.fluent_uri.specs.Prelude.{IsNormalForm, IsTarget, components, default_rules, encode_past_ascii, iri, iri_ref_text, iri_text, uri_text};

use fluent_uri::resolve::{ResolveError, Resolver};
use fluent_uri::{Iri, IriRef, Uri};
use std::alloc::{AllocError, Global};

/// A caller proves that an IRI and its URI, as an IRI, have the same normal form, and returns the
/// normal forms of both.
///
/// # Errors
///
/// Only if allocation fails.
pub fn same_normal_form(
    alloc: Global,
    value: &Iri<String>,
) -> Result<(Iri<String>, Iri<String>), AllocError>
    ensures first { IfOk result (λ both.
        IsNormalForm iri default_rules (encode_past_ascii (iri_text value.now)) (iri_text both.0)) }
    ensures equal { IfOk result (λ both. iri_text both.1 ≡ iri_text both.0) }
{
    let converted = Iri::<String>::from(value.to_uri(alloc)?);
    Ok((converted.normalize(alloc)?, value.normalize(alloc)?))
}

/// A caller proves that a base and a reference that are converted to URIs first come to the
/// converted target, and returns the target of both ways.
///
/// # Errors
///
/// Those of `Resolver::resolve`.
pub fn same_target(
    alloc: Global,
    base: Iri<&str>,
    reference: IriRef<&str>,
) -> Result<(Uri<String>, Uri<String>), ResolveError>
    ensures first { IfOk result (λ both. IsTarget true
        (components (encode_past_ascii (iri_text base.entry)))
        (components (encode_past_ascii (iri_ref_text reference.entry))) (uri_text both.0)) }
    ensures equal { IfOk result (λ both. uri_text both.1 ≡ uri_text both.0) }
{
    let target = Resolver::with_base(base).resolve(alloc, &reference)?;
    let of_uris = Resolver::with_base(base.to_uri(alloc)?).resolve(
        alloc,
        &reference.to_uri_ref(alloc)?,
    )?;
    Ok((target.to_uri(alloc)?, of_uris))
}
