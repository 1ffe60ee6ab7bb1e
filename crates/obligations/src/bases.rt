//! Code over URIs and IRIs alike, by the kinds of bases and of references.

ghost use Rattle.std.specs.Prelude.{IfOk, IsSomeAnd};
ghost use Rattle.fluent_uri.specs.Prelude.{reference_text, target_of_texts};
ghost use Rattle.uri_relative.specs.Leading.{LeadsTo};

use fluent_uri::Reference;
use fluent_uri::kind::{BaseKind, RefKind};
use fluent_uri::resolve::ResolveError;
use std::alloc::Global;
use uri_relative::Relativize;

/// A caller makes a link of a page to where another link of it leads: all are of URIs, or of IRIs.
///
/// # Errors
///
/// Those of `resolve_against`.
pub fn link_to_target<K: RefKind>(
    alloc: Global,
    page: &Reference<K::Base, &str>,
    link: &Reference<K, &str>,
) -> Result<Reference<<K::Base as BaseKind>::Ref, String>, ResolveError>
    ensures { IfOk result (λ made.
        IsSomeAnd (target_of_texts (reference_text page.now) (reference_text link.now))
        (λ target. LeadsTo (reference_text page.now) target (reference_text made))) }
{
    let target = link.resolve_against(alloc, page)?;
    Ok(page.relativize(alloc, &target)?)
}
