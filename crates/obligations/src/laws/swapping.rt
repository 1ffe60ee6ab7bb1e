//! Resolving and normalising, in either order (RFC 3986, sections 5.2 and 6.2.2).
ghost use Rattle.std.specs.Prelude.{◌≡◌, IfOk};
ghost use Rattle.fluent_uri.specs.Prelude.{IsNormalFormOfTarget, default_rules, iri, iri_ref_text, iri_text, uri_text};

use fluent_uri::laws::normal_forms_have_equivalent_targets;
use fluent_uri::normalize::Normalizer;
use fluent_uri::resolve::{ResolveError, Resolver};
use fluent_uri::{Iri, IriRef, Uri, UriRef};
use std::alloc::Global;

/// A caller proves that it makes no difference whether a base and a link are normalised before the
/// link is resolved: returns the normal form of its target, and that of the target of their normal
/// forms, which are equal.
///
/// # Errors
///
/// Those of `resolve_against`.
pub fn normalised_before(
    alloc: Global,
    base: Uri<&str>,
    link: UriRef<&str>,
) -> Result<(Uri<String>, Uri<String>), ResolveError>
    ensures { IfOk result (λ both. uri_text both.1 ≡ uri_text both.0) }
{
    let normalizer = Normalizer::new();
    let (normal_base, normal_link) = (base.normalize(alloc)?, link.normalize(alloc)?);
    normal_forms_have_equivalent_targets(&normalizer, &base, &link, &normal_base, &normal_link);
    let target = link.resolve_against(alloc, &base)?;
    let other = normal_link.resolve_against(alloc, &normal_base)?;
    Ok((target.normalize(alloc)?, other.normalize(alloc)?))
}

/// A caller proves that resolving and then normalising is resolving and normalising in one call:
/// returns the results of both, which are equal.
///
/// # Errors
///
/// Those of `Resolver::resolve_normalized`.
pub fn normalised_after(
    alloc: Global,
    base: Iri<&str>,
    reference: IriRef<&str>,
) -> Result<(Iri<String>, Iri<String>), ResolveError>
    ensures first { IfOk result (λ both. IsNormalFormOfTarget iri default_rules
        (iri_text base.entry) (iri_ref_text reference.entry) (iri_text both.0)) }
    ensures equal { IfOk result (λ both. iri_text both.1 ≡ iri_text both.0) }
{
    let resolver = Resolver::with_base(base);
    let target = resolver.resolve_normalized(alloc, &reference, &Normalizer::new())?;
    let resolved = resolver.resolve(alloc, &reference)?;
    Ok((target, resolved.normalize(alloc)?))
}
