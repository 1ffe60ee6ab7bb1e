//! The text of a target, and where its components are (RFC 3986, sections 5.2 and 5.3).
ghost use Rattle.std.specs.Prelude.{◌≡◌, ◌+◌, ◌++◌, ℕ, List, Option, [], codes, IfErr, IfOk, IfSome, OnOk, is_some, length, option_map, string_bytes, true};
ghost use Rattle.uri_pct.specs.Prelude.{Pushes};
ghost use Rattle.uri_parts.specs.Prelude.{ArePackedPositionsOf, Components, IsAbemptyPath, marked, packed, positions_of, recompose};
ghost use Rattle.uri_ops.specs.Models.Places.{before_path};
ghost use Rattle.uri_ops.specs.Models.TargetCases.{IsDottedTarget, dotted_path};
ghost use Rattle.uri_ops.specs.Resolving.{IsErrorFor, IsTarget, components_of, with_final_path};
ghost use Rattle.uri_ops.specs.Target.{dotless_if_absolute, guarded, underflows_if_absolute};

use crate::path::dot_segments::{push_merged, push_without_dot_segments};
use crate::path::slashes::{begins_with_slash, guard_path};
use crate::resolve::dotted_target::{DottedTarget, with_scheme};
use crate::resolve::error::ResolveError;
use crate::resolve::found_target::{FoundTarget, found_target};
use crate::resolve::target_pieces::TargetPieces;
use crate::resolve::text_view::TextView;
use std::alloc::{AllocError, Global};
use uri_parts::packed_positions::PackedPositions;
use uri_parts::positions::Positions;

/// The text of a target, and where its components are.
#[derive(Drop)]
pub(crate) struct Target {
    pub(crate) text: String,
    pub(crate) positions: PackedPositions,
}

/// Appends a target's path, without its dot segments if it begins with `/`, and returns whether
/// their removal underflows.
fn push_without_dots_if_absolute(path: &str, out: &mut String) -> Result<bool, AllocError>
    ensures text { OnOk result (Pushes out.old out.new (dotless_if_absolute path.now)) }
    ensures underflow { IfOk result (λ underflowed. underflowed ≡ underflows_if_absolute path.now) }
{
    if begins_with_slash(path.as_bytes()) {
        push_without_dot_segments(path, out)
    } else {
        out.push_str(path)?;
        Ok(false)
    }
}

/// Appends a piece of a target, which may be empty.
#[inline(always)]
fn push_unless_empty(piece: &str, out: &mut String) -> Result<(), AllocError>
    ensures { OnOk result (Pushes out.old out.new piece.now) }
{
    if piece.is_empty() {
        return Ok(());
    }
    out.push_str(piece)
}

/// Appends a target's scheme and authority, with their delimiters.
#[inline(always)]
fn push_before_path(dotted: &DottedTarget<'_>, out: &mut String) -> Result<(), AllocError>
    ensures { (t : Components) → IsDottedTarget t dotted.now
        → OnOk result (Pushes out.old out.new (before_path t)) }
{
    push_unless_empty(dotted.scheme, out)?;
    out.push_str(dotted.before_path)?;
    Ok(())
}

/// Appends a target's path without its dot segments, if it begins with `/`, and returns whether
/// their removal underflows (RFC 3986, section 5.2.2).
fn push_path(dotted: &DottedTarget<'_>, out: &mut String) -> Result<bool, AllocError>
    requires { IfSome dotted.now.base_path (λ base. IsAbemptyPath base.now) }
    ensures text { OnOk result
        (Pushes out.old out.new (dotless_if_absolute (dotted_path dotted.now))) }
    ensures underflow { IfOk result (λ underflowed.
        underflowed ≡ underflows_if_absolute (dotted_path dotted.now)) }
{
    match dotted.base_path {
        Some(base) => push_merged(base, dotted.path, out),
        None => push_without_dots_if_absolute(dotted.path, out),
    }
}

/// Appends a target's path without its dot segments, after `/.` where it would be parsed as an
/// authority.
fn push_guarded_path(dotted: &DottedTarget<'_>, out: &mut String) -> Result<bool, AllocError>
    requires { IfSome dotted.now.base_path (λ base. IsAbemptyPath base.now) }
    ensures text { (authority : Option (List ℕ))
        → is_some dotted.now.authority ≡ is_some authority
        → OnOk result (Pushes out.old out.new
        (guarded authority (dotless_if_absolute (dotted_path dotted.now)))) }
    ensures underflow { IfOk result (λ underflowed.
        underflowed ≡ underflows_if_absolute (dotted_path dotted.now)) }
{
    let start = out.len();
    let underflowed = push_path(dotted, out)?;
    if dotted.authority.is_none() {
        guard_path(start, out)?;
    }
    Ok(underflowed)
}

/// Appends a target's query with its `?`, if it has one, and returns where it ends.
#[inline(always)]
fn push_query(query: &str, out: &mut String) -> Result<Option<usize>, AllocError>
    ensures text { OnOk result (Pushes out.old out.new query.now) }
    ensures end { (q : Option (List ℕ)) → query.now ≡ marked (codes "?") q []
        → IfOk result (λ end. end
        ≡ option_map (λ s. length (string_bytes out.old) + 1 + length s) q) }
{
    if query.is_empty() {
        return Ok(None);
    }
    out.push_str(query)?;
    Ok(Some(out.len()))
}

/// Returns a target without its dot segments, and whether their removal underflows.
fn written_target(alloc: Global, dotted: &DottedTarget<'_>) -> Result<(Target, bool), AllocError>
    requires { IfSome dotted.now.base_path (λ base. IsAbemptyPath base.now) }
    ensures text { (t : Components) → IsDottedTarget t dotted.now → IfOk result (λ written.
        string_bytes written.0.text ≡ recompose (with_final_path t)) }
    ensures places { (t : Components) → IsDottedTarget t dotted.now → IfOk result (λ written.
        written.0.positions ≡ packed (positions_of (with_final_path t))) }
    ensures underflow { (t : Components) → IsDottedTarget t dotted.now
        → IfOk result (λ written. written.1 ≡ underflows_if_absolute t.path) }
{
    let mut text = String::with_capacity(alloc, dotted.capacity())?;
    push_before_path(dotted, &mut text)?;
    let path_start = text.len();
    let underflowed = push_guarded_path(dotted, &mut text)?;
    let path_end = text.len();
    let query_end = push_query(dotted.query, &mut text)?;
    push_unless_empty(dotted.fragment, &mut text)?;
    let positions = PackedPositions::of(&Positions {
        scheme_end: dotted.scheme_end,
        authority: dotted.authority,
        path_start,
        path_end,
        query_end,
    });
    Ok((Target { text, positions }, underflowed))
}

/// Returns the text of the target of a reference that has a scheme, without its dot segments if its
/// path begins with `/`, and where its components are (RFC 3986, section 5.2.2).
pub fn target_with_scheme(
    alloc: Global,
    reference: &TextView<'_>,
) -> Result<(String, PackedPositions), AllocError>
    requires { is_some (components_of reference.now).scheme ≡ true }
    ensures text { IfOk result (λ target.
        string_bytes target.0 ≡ recompose (with_final_path (components_of reference.now))) }
    ensures at { IfOk result (λ target.
        ArePackedPositionsOf (string_bytes target.0) target.1) }
{
    let (target, _underflowed) = written_target(alloc, &with_scheme(reference))?;
    Ok((target.text, target.positions))
}

/// Returns the text of a target that is two pieces.
fn joined(alloc: Global, pieces: &TargetPieces<'_>) -> Result<String, AllocError>
    ensures { IfOk result (λ text.
        string_bytes text ≡ pieces.now.prefix.now ++ pieces.now.suffix.now) }
{
    let mut text = String::with_capacity(alloc, pieces.prefix.len() + pieces.suffix.len())?;
    text.push_str(pieces.prefix)?;
    text.push_str(pieces.suffix)?;
    Ok(text)
}

/// Returns the target's text, and where its components are. An error that the components alone
/// decide comes before any allocation.
pub(crate) fn target_text(
    alloc: Global,
    base: &TextView<'_>,
    reference: &TextView<'_>,
    allow_path_underflow: bool,
) -> Result<Target, ResolveError>
    requires { is_some (components_of base.now).scheme ≡ true }
    ensures target { IfOk result (λ target.
        IsTarget allow_path_underflow (components_of base.now) (components_of reference.now)
        (string_bytes target.text)) }
    ensures at { IfOk result (λ target.
        ArePackedPositionsOf (string_bytes target.text) target.positions) }
    ensures error { IfErr result
        (IsErrorFor allow_path_underflow (components_of base.now) (components_of reference.now)) }
{
    let found = found_target(base, reference, allow_path_underflow)?;
    match found {
        FoundTarget::Reference => Ok(Target {
            text: String::from_str(alloc, reference.as_str())?,
            positions: reference.packed_positions(),
        }),
        FoundTarget::Pieces(pieces) => Ok(Target {
            text: joined(alloc, &pieces)?,
            positions: pieces.positions,
        }),
        FoundTarget::Dotted(dotted) => {
            let (target, underflowed) = written_target(alloc, &dotted)?;
            if underflowed && !allow_path_underflow {
                return Err(ResolveError::PathUnderflow);
            }
            Ok(target)
        }
    }
}
