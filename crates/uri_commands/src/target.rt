//! The command `resolve uri|iri BASE REF` (RFC 3986, section 5.2).
ghost use Rattle.std.specs.Prelude.{◌≡◌, false, IfOk, IfErr, Some, string_bytes};
ghost use Rattle.fluent_uri.specs.Prelude.{IsErrorWithUnderflowAllowed, IsOfKind, components, reference_text};
ghost use Rattle.uri_commands.specs.Commands.{Resolve, kind_of_base, kind_of_references, target_text};
ghost use Rattle.uri_commands.specs.Ends.{has_output_failed};
ghost use Rattle.uri_commands.specs.Refusals.{IsErrorOfCommand};

use crate::command::BaseName;
use crate::refusal::CommandError;
use fluent_uri::kind::RefKind;
use fluent_uri::resolve::ResolveError;
use fluent_uri::{Iri, IriRef, Reference, Uri, UriRef};
use std::alloc::Global;

/// Parses the base and the reference of `resolve`, and returns the target. Path underflow is not an
/// error.
///
/// # Errors
///
/// - `Base` if the base is not of its kind.
/// - Otherwise `Reference` if the reference is not of its kind.
/// - Otherwise `Target` if there is no target, or if allocation fails.
pub fn target(
    alloc: Global,
    kind: BaseName,
    base: &str,
    reference: &str,
) -> Result<String, CommandError>
    ensures base { IfOk result (λ _. IsOfKind (kind_of_base kind) base.now) }
    ensures reference { IfOk result (λ _. IsOfKind (kind_of_references kind) reference.now) }
    ensures refused { IfErr result (IsErrorOfCommand (Resolve kind base.now reference.now)) }
    ensures target { IfOk result (λ target. target_text base.now reference.now
        ≡ Some (string_bytes target)) }
    ensures unwritten { has_output_failed result ≡ false }
{
    Ok(match kind {
        BaseName::Uri => {
            let base = Uri::<&str>::parse(base).map_err(CommandError::Base)?;
            let reference = UriRef::<&str>::parse(reference).map_err(CommandError::Reference)?;
            target_of(alloc, &base, &reference)?.into_string()
        }
        BaseName::Iri => {
            let base = Iri::<&str>::parse(base).map_err(CommandError::Base)?;
            let reference = IriRef::<&str>::parse(reference).map_err(CommandError::Reference)?;
            target_of(alloc, &base, &reference)?.into_string()
        }
    })
}

/// Returns the target of a reference against a base.
fn target_of<K: RefKind>(
    alloc: Global,
    base: &Reference<K::Base, &str>,
    reference: &Reference<K, &str>,
) -> Result<Reference<K::Base, String>, ResolveError>
    ensures target { IfOk result (λ target. target_text (reference_text base.now)
        (reference_text reference.now) ≡ Some (reference_text target)) }
    ensures refusal { IfErr result (IsErrorWithUnderflowAllowed
        (components (reference_text base.now)) (components (reference_text reference.now))) }
{
    reference.resolve_against(alloc, base)
}
