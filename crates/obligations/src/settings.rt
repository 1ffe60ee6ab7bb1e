//! Normalisers and resolvers, with and without settings.
#![tactic(auto)]

use fluent_uri::normalize::{
    DefaultPorts, NormalizeError, Normalizer, SchemeRules, StandardRules, WithPorts,
};
use fluent_uri::resolve::{ResolveError, Resolver};
use fluent_uri::{Uri, UriRef};
use std::alloc::Global;

/// A caller gets the normal form of a URI by a `Normalizer` without settings.
pub fn normal_form(alloc: Global, uri: &Uri<&str>) -> Result<Uri<String>, NormalizeError> {
    let normalizer = Normalizer::new();
    normalizer.normalize(alloc, uri)
}

/// A caller gets the normal form of a URI by a `Normalizer` that rejects dot segments that
/// underflow.
pub fn normal_form_without_underflow(
    alloc: Global,
    uri: &Uri<&str>,
) -> Result<Uri<String>, NormalizeError> {
    let normalizer = Normalizer::new().allow_path_underflow(false);
    normalizer.normalize(alloc, uri)
}

/// A caller gets the normal form of a URI by a `Normalizer` under default ports of its own.
pub fn normal_form_under<P: SchemeRules>(
    alloc: Global,
    uri: &Uri<&str>,
    ports: P,
) -> Result<Uri<String>, NormalizeError> {
    let normalizer = Normalizer::new().default_port_with(ports);
    normalizer.normalize(alloc, uri)
}

/// A caller gets the normal form of a URI by the rules that standards give.
pub fn normal_form_by_standards(
    alloc: Global,
    uri: &Uri<&str>,
) -> Result<Uri<String>, NormalizeError> {
    let normalizer = Normalizer::new().scheme_rules_with(StandardRules);
    normalizer.normalize(alloc, uri)
}

/// A caller names the type of a `Normalizer` with default ports of its own.
pub fn with_own_ports<P: SchemeRules>(ports: P) -> Normalizer<WithPorts<P, DefaultPorts>> {
    Normalizer::new().default_port_with(ports)
}

/// A caller gets the targets of two references by one `Resolver`.
pub fn both_targets(
    alloc: Global,
    base: Uri<&str>,
    first: &UriRef<&str>,
    second: &UriRef<&str>,
) -> Result<(Uri<String>, Uri<String>), ResolveError> {
    let resolver = Resolver::with_base(base);
    Ok((
        resolver.resolve(alloc, first)?,
        resolver.resolve(alloc, second)?,
    ))
}

/// A caller gets the target of a reference by a `Resolver` that rejects dot segments that
/// underflow.
pub fn target_without_underflow(
    alloc: Global,
    base: Uri<&str>,
    reference: &UriRef<&str>,
) -> Result<Uri<String>, ResolveError> {
    let resolver = Resolver::with_base(base).allow_path_underflow(false);
    resolver.resolve(alloc, reference)
}

/// A caller gets the normal form of the target of a reference by a `Resolver` and a `Normalizer`.
pub fn normal_target(
    alloc: Global,
    base: Uri<&str>,
    reference: &UriRef<&str>,
) -> Result<Uri<String>, ResolveError> {
    let resolver = Resolver::with_base(base);
    resolver.resolve_normalized(alloc, reference, &Normalizer::new())
}
