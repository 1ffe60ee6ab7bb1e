//! The text of a reference that leads from a base to a target (RFC 3986, sections 4.2 and 5.2).
ghost use Rattle.std.specs.Prelude.{◌≡◌, Bool, IfOk, IfSome, IsNone, OnOk, false, true};
ghost use Rattle.uri_pct.specs.Prelude.{Pushes, slash};
ghost use Rattle.uri_parts.specs.Prelude.{Components, positions_of, recompose, starts};
ghost use Rattle.uri_ops.specs.Prelude.{components_of, with_final_path};
ghost use Rattle.uri_relative.specs.Forms.{IsReferenceOfEachKind, IsTextOfReference, IsUnguarded, NeedsPath, NeedsRelativePath, is_guarded};
ghost use Rattle.uri_relative.specs.Rule.{reference_components};

use crate::ends::TargetSuffix;
use crate::paths::push_path;
use crate::pieces::{have_same_authority, have_same_path, have_same_query, have_same_scheme};
use crate::places::positions_with_path;
use std::alloc::AllocError;
use uri_ops::path::slashes::begins_with_slash;
use uri_ops::resolve::found_target::is_opaque;
use uri_ops::resolve::text_view::TextView;
use uri_parts::positions::Positions;

/// Returns whether a base and a target have equal authorities, and equal paths too, so that the
/// reference needs neither.
#[inline(always)]
fn have_same_authority_and_path(base: &TextView<'_>, target: &TextView<'_>) -> bool
    ensures same { result ≡ true
        → ((components_of base.now).authority ≡ (components_of target.now).authority)
        × ((components_of base.now).path ≡ (components_of target.now).path) }
    ensures other { result ≡ false
        → (components_of base.now).authority ≡ (components_of target.now).authority
        → (components_of base.now).path ≡ (components_of target.now).path → ⊥ }
{
    if !have_same_authority(base, target) {
        return false;
    }
    have_same_path(base, target)
}

/// Returns the reference without a path, if there is one: the target's text from the fragment or
/// the query on.
#[inline(always)]
fn suffix_without_path<'a>(base: &TextView<'_>, target: &TextView<'a>) -> Option<TargetSuffix<'a>>
    requires settled { let t = components_of target.now in with_final_path t ≡ t }
    requires scheme { (components_of base.now).scheme ≡ (components_of target.now).scheme }
    ensures some { IfSome result (λ end. IsTextOfReference (components_of base.now)
        (components_of target.now) end.text.now end.positions) }
    ensures text { IfSome result (λ end. (prefers : Bool) → end.text.now
        ≡ recompose (reference_components prefers (components_of base.now)
        (components_of target.now))) }
    ensures none { IsNone result → NeedsPath (components_of base.now) (components_of target.now) }
{
    if !have_same_authority_and_path(base, target) {
        return None;
    }
    if have_same_query(base, target) {
        return Some(TargetSuffix::from_fragment(target));
    }
    if !target.has_query() {
        return None;
    }
    if is_opaque(base) {
        return None;
    }
    Some(TargetSuffix::from_query(target))
}

/// Returns the target's text from the scheme or the authority on, or none if a path leads from the
/// base's to the target's.
#[inline(always)]
fn suffix_from_authority<'a>(base: &TextView<'_>, target: &TextView<'a>) -> Option<TargetSuffix<'a>>
    requires settled { let t = components_of target.now in with_final_path t ≡ t }
    requires scheme { (components_of base.now).scheme ≡ (components_of target.now).scheme }
    requires path { NeedsPath (components_of base.now) (components_of target.now) }
    ensures some { IfSome result (λ end. IsTextOfReference (components_of base.now)
        (components_of target.now) end.text.now end.positions) }
    ensures text { IfSome result (λ end. (prefers : Bool) → end.text.now
        ≡ recompose (reference_components prefers (components_of base.now)
        (components_of target.now))) }
    ensures none { IsNone result → NeedsRelativePath (components_of base.now)
        (components_of target.now) }
{
    if is_opaque(base) {
        return Some(TargetSuffix::whole(target));
    }
    if !have_same_authority(base, target) {
        return Some(TargetSuffix::from_authority(target));
    }
    if begins_with_slash(target.path().as_bytes()) {
        return None;
    }
    Some(TargetSuffix::from_authority(target))
}

/// Returns the reference that is a suffix of the target's text, or none if a path leads from the
/// base's to the target's.
#[inline(always)]
fn target_suffix<'a>(base: &TextView<'_>, target: &TextView<'a>) -> Option<TargetSuffix<'a>>
    requires { let t = components_of target.now in with_final_path t ≡ t }
    ensures some { IfSome result (λ end. IsTextOfReference (components_of base.now)
        (components_of target.now) end.text.now end.positions) }
    ensures text { IfSome result (λ end. (prefers : Bool) → end.text.now
        ≡ recompose (reference_components prefers (components_of base.now)
        (components_of target.now))) }
    ensures none { IsNone result → NeedsRelativePath (components_of base.now)
        (components_of target.now) }
{
    if !have_same_scheme(base, target) {
        return Some(TargetSuffix::whole(target));
    }
    match suffix_without_path(base, target) {
        Some(end) => Some(end),
        None => suffix_from_authority(base, target),
    }
}

/// Returns whether a target's path has the guard: it begins with `/.//`.
#[inline(always)]
fn is_guarded(path: &[u8]) -> bool
    ensures { result ≡ is_guarded path.now }
{
    matches!(path, [b'/', b'.', b'/', b'/', ..])
}

/// Returns the path that a reference leads to: the target's without a guard `/.` (RFC 3986, section
/// 5.2.2).
#[inline(always)]
fn without_guard<'a>(target: &TextView<'a>) -> &'a str
    requires settled { let t = components_of target.now in with_final_path t ≡ t }
    requires absolute { starts slash (components_of target.now).path ≡ true }
    ensures { IsUnguarded (components_of target.now) result.now }
{
    let path = target.path();
    if target.has_authority() {
        return path;
    }
    if is_guarded(path.as_bytes()) {
        return &path[2..];
    }
    path
}

/// Appends a reference with a path that leads from the base's to the target's. Returns the
/// positions of its components.
#[inline(always)]
fn push_reference_with_path(
    base: &TextView<'_>,
    target: &TextView<'_>,
    prefers_relative: bool,
    out: &mut String,
) -> Result<Positions, AllocError>
    requires settled { let t = components_of target.now in with_final_path t ≡ t }
    requires path { NeedsRelativePath (components_of base.now) (components_of target.now) }
    ensures leads { IfOk result (λ positions. (r : Components)
        × Pushes out.old out.new (recompose r) × (positions ≡ positions_of r)
        × IsReferenceOfEachKind prefers_relative (components_of base.now) (components_of target.now)
        r) }
    ensures text { OnOk result (Pushes out.old out.new
        (recompose (reference_components prefers_relative (components_of base.now)
        (components_of target.now)))) }
{
    let start = out.len();
    push_path(base.path(), without_guard(target), prefers_relative, out)?;
    let path_len = out.len() - start;
    out.push_str(target.after_path())?;
    Ok(positions_with_path(target, path_len))
}

/// Appends a reference that leads from the base, without its fragment, to a target without dot
/// segments to remove. Returns the positions of its components.
#[inline(always)]
pub(crate) fn push_reference(
    base: &TextView<'_>,
    target: &TextView<'_>,
    prefers_relative: bool,
    out: &mut String,
) -> Result<Positions, AllocError>
    requires { let t = components_of target.now in with_final_path t ≡ t }
    ensures leads { IfOk result (λ positions. (r : Components)
        × Pushes out.old out.new (recompose r) × (positions ≡ positions_of r)
        × IsReferenceOfEachKind prefers_relative (components_of base.now) (components_of target.now)
        r) }
    ensures text { OnOk result (Pushes out.old out.new
        (recompose (reference_components prefers_relative (components_of base.now)
        (components_of target.now)))) }
{
    match target_suffix(base, target) {
        Some(end) => {
            out.push_str(end.text)?;
            Ok(end.positions)
        }
        None => push_reference_with_path(base, target, prefers_relative, out),
    }
}
