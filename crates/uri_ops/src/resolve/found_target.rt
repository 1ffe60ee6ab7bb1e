//! What a target is made of, which is found before it is written (RFC 3986, section 5.2.2).
ghost use Rattle.std.specs.Prelude.{◌≡◌, ◌||◌, ◌++◌, IfErr, IfOk, IfSome, false, is_some, true};
ghost use Rattle.uri_pct.specs.Prelude.{number_sign, slash};
ghost use Rattle.uri_parts.specs.Prelude.{ArePackedPositionsOf, starts};
ghost use Rattle.uri_ops.specs.Dots.{is_empty};
ghost use Rattle.uri_ops.specs.Models.FoundTargets.{IsFoundTarget};
ghost use Rattle.uri_ops.specs.Models.TargetCases.{IsCaseOf};
ghost use Rattle.uri_ops.specs.Resolving.{IsErrorFor, IsTarget, components_of};
ghost use Rattle.uri_ops.specs.Target.{is_fragment_only, is_opaque, is_opaque_rejection};

use crate::path::slashes::begins_with_slash;
use crate::resolve::dotted_target::{DottedTarget, dotted_target};
use crate::resolve::error::ResolveError;
use crate::resolve::target_case::{TargetCase, target_case};
use crate::resolve::target_pieces::{TargetPieces, target_pieces};
use crate::resolve::text_view::TextView;

/// What a target is made of.
#[derive(Drop)]
pub(crate) enum FoundTarget<'a> {
    /// The reference as it is: it has a scheme, and a path that doesn't begin with `/`.
    Reference,
    /// A prefix of the base and a suffix of the reference.
    Pieces(TargetPieces<'a>),
    /// More pieces, whose path may have dot segments to remove.
    Dotted(DottedTarget<'a>),
}

/// Returns whether a reference's text is empty or begins with `#`, as one that an opaque base
/// takes.
fn is_empty_or_fragment(text: &[u8]) -> bool
    ensures { result ≡ (is_empty text.now || starts number_sign text.now) }
{
    matches!(text, [] | [b'#', ..])
}

/// Returns whether a reference has nothing but a fragment, or not even that.
#[tactic(auto, using(crate::proofs::Targeting::Targets::fragment_only_is_empty_or_leading_hash))]
fn is_fragment_only(reference: &TextView<'_>) -> bool
    ensures { result ≡ is_fragment_only (components_of reference.now) }
{
    is_empty_or_fragment(reference.as_str().as_bytes())
}

/// Returns whether a base is opaque: it has no authority, and no `/` begins its path. Of references
/// without a scheme, it takes only an empty one and a fragment.
#[inline(always)]
pub fn is_opaque(base: &TextView<'_>) -> bool
    ensures { result ≡ is_opaque (components_of base.now) }
{
    !base.has_authority() && !begins_with_slash(base.path().as_bytes())
}

/// Returns whether an opaque base rejects a reference: the reference has no scheme, is not empty
/// and doesn't begin with `#`.
fn is_opaque_rejection(base: &TextView<'_>, reference: &TextView<'_>) -> bool
    ensures { result ≡ is_opaque_rejection (components_of base.now) (components_of reference.now) }
{
    is_opaque(base) && !(reference.has_scheme() || is_fragment_only(reference))
}

/// Returns whether a reference has a scheme, and a path that doesn't begin with `/`.
#[inline(always)]
fn is_rootless_with_scheme(case: TargetCase, reference: &TextView<'_>) -> bool
    requires { IsCaseOf (components_of reference.now) case }
    ensures scheme { result ≡ true → is_some (components_of reference.now).scheme ≡ true }
    ensures rootless { result ≡ true → starts slash (components_of reference.now).path ≡ false }
{
    match case {
        TargetCase::WithScheme => !begins_with_slash(reference.path().as_bytes()),
        _ => false,
    }
}

/// Returns what the target of a reference is made of. It requests no memory.
#[inline(always)]
pub(crate) fn found_target<'a>(
    base: &TextView<'a>,
    reference: &TextView<'a>,
    allow_path_underflow: bool,
) -> Result<FoundTarget<'a>, ResolveError>
    ensures found { IfOk result (IsFoundTarget allow_path_underflow (components_of base.now)
        (components_of reference.now)) }
    ensures error { IfErr result
        (IsErrorFor allow_path_underflow (components_of base.now) (components_of reference.now)) }
{
    if base.has_fragment() {
        return Err(ResolveError::BaseWithFragment);
    }
    let case = target_case(reference);
    if is_rootless_with_scheme(case, reference) {
        return Ok(FoundTarget::Reference);
    }
    if let Some(pieces) = target_pieces(case, base, reference) {
        if pieces.underflows && !allow_path_underflow {
            return Err(ResolveError::PathUnderflow);
        }
        return Ok(FoundTarget::Pieces(pieces));
    }
    if is_opaque_rejection(base, reference) {
        return Err(ResolveError::InvalidReferenceAgainstOpaqueBase);
    }
    Ok(FoundTarget::Dotted(dotted_target(case, base, reference)))
}

/// Returns the target of a reference as a prefix of the base and a suffix of the reference, if it
/// is found as that.
pub(crate) fn taken_pieces<'a>(
    base: &TextView<'a>,
    reference: &TextView<'a>,
    allow_path_underflow: bool,
) -> Option<TargetPieces<'a>>
    requires { is_some (components_of base.now).scheme ≡ true }
    ensures target { IfSome result (λ pieces.
        IsTarget allow_path_underflow (components_of base.now) (components_of reference.now)
        (pieces.prefix.now ++ pieces.suffix.now)) }
    ensures at { IfSome result (λ pieces.
        ArePackedPositionsOf (pieces.prefix.now ++ pieces.suffix.now) pieces.positions) }
{
    let Ok(found) = found_target(base, reference, allow_path_underflow) else {
        return None;
    };
    match found {
        FoundTarget::Reference => Some(TargetPieces {
            prefix: "",
            suffix: reference.as_str(),
            positions: reference.packed_positions(),
            underflows: false,
        }),
        FoundTarget::Pieces(pieces) => Some(pieces),
        FoundTarget::Dotted(_) => None,
    }
}
