//! The text of a target by the basic algorithm (RFC 3986, sections 5.2.2 and 5.3).
ghost use Rattle.std.specs.Prelude.{◌≡◌, ◌≤◌, ◌+◌, ◌++◌, ℕ, List, [], IfErr, IfOk, OnOk, Ok, is_some, length, string_bytes};
ghost use Rattle.uri_pct.specs.Prelude.{Pushes};
ghost use Rattle.uri_parts.specs.Prelude.{components, core_text, packed, positions_of};
ghost use Rattle.uri_ops.specs.Prelude.{before_path, components_of, up_to_last_slash};
ghost use Rattle.uri_basic.specs.Models.Pieces.{ArePlacesToHost, after_path};
ghost use Rattle.uri_basic.specs.Resolving.{IsBasicError};
ghost use Rattle.uri_basic.specs.Target.{basic_resolution, is_ambiguous, merge, target};

use crate::dots::{push_merged, push_without_dot_segments};
use crate::error::BasicResolveError;
use std::alloc::{AllocError, Global};
use uri_ops::path::slashes::{begins_with_slash, begins_with_two_slashes};
use uri_ops::resolve::text_view::TextView;
use uri_parts::core_text::Core;
use uri_parts::kind::Kind;
use uri_parts::packed_positions::PackedPositions;

/// The text of a target by the basic algorithm, and where its components are.
#[derive(Drop)]
pub(crate) struct BasicTarget {
    pub(crate) text: String,
    pub(crate) positions: PackedPositions,
}

/// Returns whether a target has an authority.
fn has_authority(base: &TextView<'_>, reference: &TextView<'_>) -> bool
    ensures { let t = target (components_of base.now) (components_of reference.now) in
        result ≡ is_some t.authority }
{
    if reference.has_scheme() || reference.has_authority() {
        return reference.has_authority();
    }
    base.has_authority()
}

/// Appends the scheme and the authority of a target, with their delimiters.
fn push_before_path(
    base: &TextView<'_>,
    reference: &TextView<'_>,
    out: &mut String,
) -> Result<(), AllocError>
    ensures { let t = target (components_of base.now) (components_of reference.now) in
        OnOk result (Pushes out.old out.new (before_path t)) }
{
    if reference.has_scheme() {
        return out.push_str(reference.before_path());
    }
    if reference.has_authority() {
        out.push_str(base.scheme_with_delimiter())?;
        return out.push_str(reference.before_path());
    }
    out.push_str(base.before_path())
}

/// Returns where the host of a reference, whose text and positions these are, begins and ends in a
/// target that has this scheme with its `:` before the reference's authority.
fn host_after_scheme(text: &str, places: PackedPositions, scheme: &str) -> (usize, usize)
    requires start { places.host_start ≤ length text.now }
    requires end { places.host_end ≤ length text.now }
    ensures start { result.0 ≡ length scheme.now + places.host_start }
    ensures end { result.1 ≡ length scheme.now + places.host_end }
{
    let by = scheme.len();
    (by + places.host_start, by + places.host_end)
}

/// Returns positions that are those of a target up to the end of its host.
fn places_to_host(base: &TextView<'_>, reference: &TextView<'_>) -> PackedPositions
    ensures { let t = target (components_of base.now) (components_of reference.now) in
        ArePlacesToHost t result }
{
    let own = reference.packed_positions();
    if reference.has_scheme() {
        return own;
    }
    let places = base.packed_positions();
    if !reference.has_authority() {
        return places;
    }
    let text = reference.as_str();
    let (start, end) = host_after_scheme(text, own, base.scheme_with_delimiter());
    PackedPositions {
        scheme_end: places.scheme_end,
        host_start: start,
        host_end: end,
        path_start: places.path_start,
        path_end: places.path_end,
        query_end: places.query_end,
    }
}

/// Returns the base's path to merge a reference's path with, or `/` if it is empty after an
/// authority (RFC 3986, section 5.2.3).
fn path_to_merge<'a>(base: &TextView<'a>) -> &'a str
    ensures { (path : List ℕ)
        → up_to_last_slash result.now ++ path ≡ merge (components_of base.now) path }
{
    let path = base.path();
    if base.has_authority() && path.is_empty() {
        return "/";
    }
    path
}

/// Appends the path of a target.
fn push_path(
    base: &TextView<'_>,
    reference: &TextView<'_>,
    out: &mut String,
) -> Result<(), AllocError>
    ensures { let t = target (components_of base.now) (components_of reference.now) in
        OnOk result (Pushes out.old out.new t.path) }
{
    let own = reference.path();
    if reference.has_scheme() || reference.has_authority() {
        return push_without_dot_segments(own, out);
    }
    if own.is_empty() {
        return out.push_str(base.path());
    }
    if begins_with_slash(own.as_bytes()) {
        return push_without_dot_segments(own, out);
    }
    push_merged(path_to_merge(base), own, out)
}

/// Appends the query and the fragment of a target, with their delimiters.
fn push_after_path(
    base: &TextView<'_>,
    reference: &TextView<'_>,
    out: &mut String,
) -> Result<(), AllocError>
    ensures { let t = target (components_of base.now) (components_of reference.now) in
        OnOk result (Pushes out.old out.new (after_path t)) }
{
    if reference.has_scheme()
        || reference.has_authority()
        || !reference.path().is_empty()
        || reference.has_query()
    {
        return out.push_str(reference.after_path());
    }
    out.push_str(base.query_with_delimiter())?;
    out.push_str(reference.fragment_with_delimiter())
}

/// Appends a target up to the end of its path to what is empty, and returns where the path begins,
/// and whether it would be parsed as an authority.
fn push_to_path_end(
    base: &TextView<'_>,
    reference: &TextView<'_>,
    out: &mut String,
) -> Result<(usize, bool), AllocError>
    ensures text { let t = target (components_of base.now) (components_of reference.now) in
        OnOk result (Pushes out.old out.new (before_path t ++ t.path)) }
    ensures start { let t = target (components_of base.now) (components_of reference.now) in
        string_bytes out.old ≡ [] → IfOk result (λ written. written.0 ≡ length (before_path t)) }
    ensures ambiguous { let t = target (components_of base.now) (components_of reference.now) in
        IfOk result (λ written. written.1 ≡ is_ambiguous t) }
{
    push_before_path(base, reference, out)?;
    let start = out.len();
    push_path(base, reference, out)?;
    if has_authority(base, reference) {
        return Ok((start, false));
    }
    let is_ambiguous = begins_with_two_slashes(&out.as_bytes()[start..]);
    Ok((start, is_ambiguous))
}

/// Returns the target of a reference against a base (RFC 3986, section 5.2).
pub(crate) fn target_text<B: Kind, R: Kind>(
    alloc: Global,
    base: Core<B, &str>,
    reference: Core<R, &str>,
) -> Result<BasicTarget, BasicResolveError>
    ensures target { IfOk result (λ made. basic_resolution (components (core_text base.entry))
        (components (core_text reference.entry)) ≡ Ok (string_bytes made.text)) }
    ensures positions { let t = target (components (core_text base.entry))
        (components (core_text reference.entry)) in
        IfOk result (λ made. made.positions ≡ packed (positions_of t)) }
    ensures error { IfErr result (IsBasicError (components (core_text base.entry))
        (components (core_text reference.entry))) }
{
    let base = TextView::of_core(base);
    let reference = TextView::of_core(reference);
    let capacity = base.as_str().len().saturating_add(reference.as_str().len());
    let mut text = String::with_capacity(alloc, capacity.saturating_add(1))?;
    let (path_start, is_ambiguous) = push_to_path_end(&base, &reference, &mut text)?;
    if is_ambiguous {
        return Err(BasicResolveError::PathStartsWithDoubleSlash);
    }
    let path_end = text.len();
    push_after_path(&base, &reference, &mut text)?;
    let places = places_to_host(&base, &reference);
    let query_end = text.len() - reference.fragment_with_delimiter().len();
    let positions = PackedPositions {
        scheme_end: places.scheme_end,
        host_start: places.host_start,
        host_end: places.host_end,
        path_start,
        path_end,
        query_end,
    };
    Ok(BasicTarget { text, positions })
}
