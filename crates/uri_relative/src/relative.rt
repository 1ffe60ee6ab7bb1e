//! References that lead from a base to a target (RFC 3986, sections 4.2 and 5.2).
ghost use Rattle.std.specs.Prelude.{◌≡◌, IfOk, false, string_bytes, true};
ghost use Rattle.uri_parts.specs.Prelude.{ArePositionsOf, Kind, components, core_text, recompose};
ghost use Rattle.uri_ops.specs.Prelude.{IsAbsolute, components_of, with_final_path};
ghost use Rattle.uri_relative.specs.Forms.{IsDotlessTargetOf, IsReferenceTo};
ghost use Rattle.uri_relative.specs.Leading.{settled};
ghost use Rattle.uri_relative.specs.Rule.{reference_components};

use crate::reference::push_reference;
use fluent_uri::kind::BaseKind;
use std::alloc::{AllocError, Global};
use uri_ops::path::dot_segments::has_dot_segments;
use uri_ops::path::slashes::begins_with_slash;
use uri_ops::resolve::target_text::target_with_scheme;
use uri_ops::resolve::text_view::TextView;
use uri_parts::core_text::Core;
use uri_parts::positions::Positions;

/// The text of a reference, and the positions of its components.
#[derive(Drop)]
pub(crate) struct MadeReference {
    pub(crate) text: String,
    pub(crate) positions: Positions,
}

/// Returns a reference that leads from the base to a target without dot segments to remove.
#[inline(always)]
fn reference(
    alloc: Global,
    base: &TextView<'_>,
    target: &TextView<'_>,
    prefers_relative: bool,
) -> Result<MadeReference, AllocError>
    requires { let t = components_of target.now in with_final_path t ≡ t }
    ensures leads { (kind : Kind) → IsDotlessTargetOf kind (components_of target.now)
        → IfOk result (λ made. IsReferenceTo kind prefers_relative (components_of base.now)
        (components_of target.now) (components (string_bytes made.text))) }
    ensures text { IfOk result (λ made. string_bytes made.text
        ≡ recompose (reference_components prefers_relative (components_of base.now)
        (components_of target.now))) }
    ensures at { (kind : Kind) → IsDotlessTargetOf kind (components_of target.now)
        → IfOk result (λ made. ArePositionsOf (string_bytes made.text) made.positions) }
{
    let mut text = String::with_capacity(alloc, target.as_str().len())?;
    let positions = push_reference(base, target, prefers_relative, &mut text)?;
    Ok(MadeReference { text, positions })
}

/// Returns whether a target to relativize has no dot segment that resolving removes.
#[inline(always)]
fn is_without_removable_dots(target: &TextView<'_>) -> bool
    ensures settled { result ≡ true → let t = components_of target.now in with_final_path t ≡ t }
    ensures absolute { result ≡ false → IsAbsolute (components_of target.now).path }
{
    let path = target.path();
    if !begins_with_slash(path.as_bytes()) {
        return true;
    }
    !has_dot_segments(path)
}

/// Returns the settled target: the target without its dot segments, if its path begins with `/`.
#[inline(always)]
fn settled_target<K: BaseKind>(
    alloc: Global,
    target: Core<K, &str>,
) -> Result<Core<K, String>, AllocError>
    ensures { IfOk result (λ made.
        components (core_text made) ≡ settled (core_text target.entry)) }
{
    let (text, positions) = target_with_scheme(alloc, &TextView::of_core(target))?;
    Ok(Core::new(text, positions))
}

/// Returns a reference that leads from the base to the settled target, if that is another text than
/// the target.
fn reference_to_settled_target<K: BaseKind>(
    alloc: Global,
    base: &TextView<'_>,
    target: Core<K, &str>,
    prefers_relative: bool,
) -> Result<MadeReference, AllocError>
    ensures leads { IfOk result (λ made. IsReferenceTo K.kind prefers_relative
        (components_of base.now) (settled (core_text target.entry))
        (components (string_bytes made.text))) }
    ensures text { IfOk result (λ made. string_bytes made.text
        ≡ recompose (reference_components prefers_relative (components_of base.now)
        (settled (core_text target.entry)))) }
    ensures at { IfOk result (λ made. ArePositionsOf (string_bytes made.text) made.positions) }
{
    let settled = settled_target(alloc, target)?;
    let view = TextView::of_core(settled.borrow());
    reference(alloc, base, &view, prefers_relative)
}

/// Returns a reference that leads from the base, without its fragment, to the target.
#[inline(always)]
pub(crate) fn relative<K: BaseKind>(
    alloc: Global,
    base: &TextView<'_>,
    target: Core<K, &str>,
    prefers_relative: bool,
) -> Result<MadeReference, AllocError>
    ensures leads { IfOk result (λ made. IsReferenceTo K.kind prefers_relative
        (components_of base.now) (settled (core_text target.entry))
        (components (string_bytes made.text))) }
    ensures text { IfOk result (λ made. string_bytes made.text
        ≡ recompose (reference_components prefers_relative (components_of base.now)
        (settled (core_text target.entry)))) }
    ensures at { IfOk result (λ made. ArePositionsOf (string_bytes made.text) made.positions) }
{
    let view = TextView::of_core(target);
    if is_without_removable_dots(&view) {
        return reference(alloc, base, &view, prefers_relative);
    }
    reference_to_settled_target(alloc, base, target, prefers_relative)
}
