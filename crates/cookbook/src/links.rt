//! The pages that links lead to.
ghost use Rattle.std.specs.Prelude.{◌≡◌, ◌++◌, codes, List, ℕ, IfOk, IsErrOf};
ghost use Rattle.std.specs.Prelude.{IsSomeAnd, None, OnOk, Some};
ghost use Rattle.std.specs.Io.KnownBytes.{Appends};
ghost use Rattle.fluent_uri.specs.Prelude.{IsErrorWithUnderflowAllowed, IsWithFragment, components};
ghost use Rattle.fluent_uri.specs.Prelude.{refusal, target_of_texts, uri_ref, uri_text};

use crate::refusal::Failure;
use fluent_uri::{Uri, UriRef};
use std::alloc::Global;
use std::io::Write;

/// Returns the page that a link leads to: its target against the base, without its fragment (RFC
/// 3986, sections 5.2 and 3.5).
///
/// # Errors
///
/// `Text` exactly if the link is not a URI reference; `Target` if it has no target, or if
/// allocation fails.
pub fn page(alloc: Global, base: &Uri<String>, link: &str) -> Result<Uri<String>, Failure>
    ensures page { IfOk result (λ page. IsSomeAnd (target_of_texts (uri_text base.now) link.now)
        (λ target. IsWithFragment target None (uri_text page))) }
    ensures text { (error : _) → IsErrOf result (Failure.Text error)
        → refusal uri_ref link.now ≡ Some error }
    ensures not_a_reference { (error : _) → refusal uri_ref link.now ≡ Some error
        → IsErrOf result (Failure.Text error) }
    ensures no_target { (error : _) → IsErrOf result (Failure.Target error)
        → IsErrorWithUnderflowAllowed (components (uri_text base.now)) (components link.now) error }
    ensures no_query { ¬ (IsErrOf result Failure.Query) }
{
    let mut target = UriRef::<&str>::parse(link)?.resolve_against(alloc, base)?;
    target.set_fragment(None)?;
    Ok(target)
}

/// Writes the page that a link leads to, and a newline.
///
/// # Errors
///
/// As `page`, and `OutputFailed` if the writer fails.
pub fn print_page<O: Write>(
    alloc: Global,
    base: &Uri<String>,
    link: &str,
    out: &mut O,
) -> Result<(), Failure>
    ensures printed { OnOk result ((page : List ℕ)
        × IsSomeAnd (target_of_texts (uri_text base.now) link.now)
        (λ target. IsWithFragment target None page)
        × Appends (O.contents out.old) (O.contents out.new) (page ++ codes "\n")) }
    ensures text { (error : _) → IsErrOf result (Failure.Text error)
        → refusal uri_ref link.now ≡ Some error }
    ensures no_target { (error : _) → IsErrOf result (Failure.Target error)
        → IsErrorWithUnderflowAllowed (components (uri_text base.now)) (components link.now) error }
    ensures no_query { ¬ (IsErrOf result Failure.Query) }
{
    let page = page(alloc, base, link)?;
    writeln!(out, "{page}")?;
    Ok(())
}
