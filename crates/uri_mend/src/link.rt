//! A text that is no reference, perhaps, cut before its path (RFC 3986, appendix B).
ghost use Rattle.std.specs.Prelude.{◌≡◌, ◌++◌, ◌-◌, ◌<◌, ◌≤◌, [], IfSome, codes, false, is_some, length, not, take, true, IsCharBoundary};
ghost use Rattle.std.specs.List.{list_any};
ghost use Rattle.uri_pct.specs.Prelude.{is_one_of};
ghost use Rattle.uri_parts.specs.Prelude.{ArePackedPositionsOf, IsOfKind, Kind, after_authority, after_scheme};
ghost use Rattle.uri_ops.specs.Prelude.{before_path};
ghost use Rattle.uri_mend.specs.Links.{IsLink};
ghost use Rattle.uri_mend.specs.Mending.{can_be_mended, has_false_scheme, link_components};
ghost use Rattle.uri_mend.specs.Tails.{IsMendedByPieces, IsPathMendedByPieces, query_of_tail};

use uri_ops::path::slashes::begins_with_two_slashes;
use uri_parts::component::Scheme;
use uri_parts::packed_positions::PackedPositions;
use uri_parts::slicing::{after_mark, cut_before};

/// Returns what follows the scheme of a text and its `:`, or all of it if it has none; or `None` if
/// what is before the `:` is no scheme.
fn after_scheme(text: &str) -> Option<&str>
    ensures some { is_some result ≡ not (has_false_scheme text.now) }
    ensures rest { IfSome result (λ rest. rest.now ≡ after_scheme text.now) }
{
    let (before, from) = cut_before(text, b":/?#");
    let Some(rest) = after_mark(from, b':') else {
        return Some(text);
    };
    if Scheme::new(before).is_some() {
        Some(rest)
    } else {
        None
    }
}

/// Returns what follows the `//` and the authority of a text after its scheme, or all of it if it
/// has none.
fn after_authority(rest: &str) -> &str
    ensures { result.now ≡ after_authority rest.now }
{
    if !begins_with_two_slashes(rest.as_bytes()) {
        return rest;
    }
    cut_before(&rest[2..], b"/?#").1
}

/// Where the path of a text begins, and what is before it.
#[derive(Clone, Copy)]
pub(crate) struct Link {
    pub(crate) path_start: usize,
    /// Whether `./` comes before the path, since a `:` follows what is no scheme.
    pub(crate) has_false_scheme: bool,
    /// The positions of what is before the path; those after it are of no meaning.
    pub(crate) before: PackedPositions,
}

/// Returns whether a text has one of `:/?#`.
pub(crate) fn has_mark(text: &str) -> bool
    ensures { result ≡ list_any (is_one_of (codes ":/?#")) text.now }
{
    text.as_bytes()
        .iter()
        .any(|byte| matches!(*byte, b':' | b'/' | b'?' | b'#'))
}

/// Returns whether a prefix of a text has more than a scheme and an authority, whose positions
/// these are, so that it shows where the path begins.
#[inline(always)]
fn shows_path(text: &str, index: usize, before: PackedPositions) -> bool
    requires { IsCharBoundary text.now index }
    ensures some { result ≡ true → before.path_start < index }
    ensures two { result ≡ true → before.host_start ≡ 0 → 2 ≤ index - before.path_start }
    ensures mark { result ≡ true → before.host_start ≡ 0 → before.scheme_end ≡ 0
        → list_any (is_one_of (codes ":/?#")) (take index text.now) ≡ true }
{
    if index <= before.path_start {
        return false;
    }
    if before.host_start > 0 {
        return true;
    }
    index - before.path_start > 1 && (before.scheme_end > 0 || has_mark(&text[..index]))
}

/// Returns where the path of a text begins, if a prefix of these positions shows it: it has more
/// than a scheme and an authority.
///
/// What is before the index of a parse error is such a prefix, mostly.
#[inline(always)]
pub(crate) fn link_of_prefix(text: &str, index: usize, before: PackedPositions) -> Option<Link>
    requires boundary { IsCharBoundary text.now index }
    requires positions { ArePackedPositionsOf (take index text.now) before }
    requires scheme { has_false_scheme (take index text.now) ≡ false }
    ensures link { IfSome result (IsLink text.now) }
    ensures mendable { IfSome result (λ _. (kind : Kind) → IsOfKind kind (take index text.now)
        → can_be_mended kind text.now ≡ true) }
{
    if !shows_path(text, index, before) {
        return None;
    }
    Some(Link {
        path_start: before.path_start,
        has_false_scheme: false,
        before,
    })
}

/// A text, cut before its path.
#[derive(Clone, Copy)]
pub(crate) struct CutLink<'a> {
    /// The scheme and the authority with their delimiters, or nothing.
    pub(crate) prefix: &'a str,
    /// Whether `./` comes before the path, since a `:` follows what is no scheme.
    pub(crate) has_false_scheme: bool,
    /// The path, the query and the fragment with their delimiters.
    pub(crate) tail: &'a str,
}

/// Cuts a text before its path.
pub(crate) fn cut_link(text: &str) -> CutLink<'_>
    ensures whole { text.now ≡ result.prefix.now ++ result.tail.now }
    ensures boundary { IsCharBoundary text.now (length result.prefix.now) }
    ensures alone { result.has_false_scheme ≡ true → result.prefix.now ≡ [] }
    ensures prefix { result.prefix.now ≡ before_path (link_components text.now) }
    ensures pieces { IsMendedByPieces text.now result.prefix.now result.has_false_scheme
        result.tail.now }
    ensures path { IsPathMendedByPieces (link_components text.now).path result.has_false_scheme
        result.tail.now }
    ensures query { (link_components text.now).query ≡ query_of_tail result.tail.now }
{
    let Some(rest) = after_scheme(text) else {
        return CutLink {
            prefix: "",
            has_false_scheme: true,
            tail: text,
        };
    };
    let tail = after_authority(rest);
    CutLink {
        prefix: &text[..text.len() - tail.len()],
        has_false_scheme: false,
        tail,
    }
}
