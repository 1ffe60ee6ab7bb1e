//! Code over all kinds of references, and over all that may be resolved.
#![tactic(auto)]

ghost use Rattle.std.specs.Prelude.{◌≡◌};

use fluent_uri::component::Scheme;
use fluent_uri::normalize::{DefaultPorts, SchemeRules};
use fluent_uri::resolve::{ResolveError, Resolver};
use fluent_uri::{RefOf, Ri, RiMaybeRef, WithOwned};
use std::alloc::Global;

/// A caller reads the text of a reference of any kind, borrowed or owned.
pub fn text_of_any<R: RiMaybeRef>(reference: &R) -> &str
    ensures { result.now ≡ R.text reference.now }
{
    reference.as_str()
}

/// A caller resolves a reference of any kind against a base of a kind that goes with it.
///
/// # Errors
///
/// Those of `Resolver::resolve`.
pub fn target_of_any<B: Ri, R: RefOf<B>>(
    alloc: Global,
    resolver: &Resolver<B>,
    reference: &R,
) -> Result<B::Owned, ResolveError> {
    resolver.resolve(alloc, reference)
}

/// A caller reads the normal form of a reference of any kind, as a reference itself.
pub fn text_of_owned<R: WithOwned>(owned: &R::Owned) -> &str
where
    R::Owned: RiMaybeRef,
{
    owned.as_str()
}

/// A caller asks rules of its own for a default port, or those of the library.
pub fn port_for<S: SchemeRules>(rules: Option<&S>, scheme: Scheme<'_>) -> Option<u16> {
    match rules {
        Some(rules) => rules.default_port(scheme),
        None => DefaultPorts.default_port(scheme),
    }
}

/// A caller learns whether rules have more for a scheme than a default port.
pub fn has_more_than_a_port<S: SchemeRules>(rules: &S, scheme: Scheme<'_>) -> bool {
    rules.empty_path_is_root(scheme) || rules.default_host_is_localhost(scheme)
}
