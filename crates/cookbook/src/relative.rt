//! Links that are made relative to their page.
ghost use Rattle.std.specs.Prelude.{◌≡◌, ◌≤◌, ◌↔◌, length, IfOk, IsErrOf, IsSomeAnd, Some};
ghost use Rattle.fluent_uri.specs.Prelude.{IsErrorWithUnderflowAllowed, components, refusal};
ghost use Rattle.fluent_uri.specs.Prelude.{resolution_of_texts, target_of_texts, uri_ref};
ghost use Rattle.fluent_uri.specs.Prelude.{uri_ref_text, uri_text};

use crate::refusal::Failure;
use fluent_uri::{Uri, UriRef};
use std::alloc::Global;
use uri_relative::Relativize;

/// Returns a short link that leads from the page to where the link leads (RFC 3986, section 5.2).
///
/// # Errors
///
/// `Text` exactly if the link is not a URI reference; `Target` if it has no target; and `Target` or
/// `OutOfMemory` if allocation fails.
///
/// # Examples
///
/// On the page `http://a/b/c`, for `/b/./d#e` it is `d#e`.
pub fn short_link(alloc: Global, page: &Uri<String>, link: &str) -> Result<UriRef<String>, Failure>
    ensures back { IfOk result (λ short.
        resolution_of_texts (uri_text page.now) (uri_ref_text short)
        ≡ resolution_of_texts (uri_text page.now) link.now) }
    ensures short { IfOk result (λ short.
        IsSomeAnd (target_of_texts (uri_text page.now) link.now) (λ target.
        length (uri_ref_text short) ≤ length target)) }
    ensures not_a_reference { (error : _) → IsErrOf result (Failure.Text error)
        ↔ (refusal uri_ref link.now ≡ Some error) }
    ensures no_target { (error : _) → IsErrOf result (Failure.Target error)
        → IsErrorWithUnderflowAllowed (components (uri_text page.now)) (components link.now) error }
{
    let target = UriRef::<&str>::parse(link)?.resolve_against(alloc, page)?;
    Ok(page.relativize(alloc, &target)?)
}
