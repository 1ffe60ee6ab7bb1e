//! The positions of a reference that is a suffix of a target's text, or a path before one (RFC
//! 3986, section 4.2).
ghost use Rattle.std.specs.Prelude.{◌≡◌, ◌≤◌, ◌+◌, ◌-◌, ◌^◌, ℕ, List, [], IfSome, None, length, option_map};
ghost use Rattle.uri_parts.specs.Prelude.{Components, authority_at, delimited_length, positions_of};
ghost use Rattle.uri_ops.specs.Prelude.{components_of};

use uri_ops::resolve::text_view::TextView;
use uri_parts::positions::{AuthorityPositions, Positions};

/// Returns a position of a target in the reference that is its text without the first `start`
/// bytes.
#[inline(always)]
fn shift_position_back(start: usize, position: Option<usize>) -> Option<usize>
    requires { IfSome position (λ p. start ≤ p) }
    ensures { result ≡ option_map (λ p. p - start) position }
{
    match position {
        Some(position) => Some(position - start),
        None => None,
    }
}

/// Returns the positions of a target's authority in the reference that is its text without the
/// first `start` bytes.
#[inline(always)]
fn shift_authority_back(start: usize, authority: AuthorityPositions) -> AuthorityPositions
    requires start { start ≤ authority.start }
    requires host_start { start ≤ authority.host_start }
    requires host_end { start ≤ authority.host_end }
    requires end { start ≤ authority.end }
    ensures start { result.start ≡ authority.start - start }
    ensures host_start { result.host_start ≡ authority.host_start - start }
    ensures host_end { result.host_end ≡ authority.host_end - start }
    ensures end { result.end ≡ authority.end - start }
{
    AuthorityPositions {
        start: authority.start - start,
        host_start: authority.host_start - start,
        host_end: authority.host_end - start,
        end: authority.end - start,
    }
}

/// Returns the positions of the authority in a reference that is the target's text without its
/// scheme and `:`, which end at `start`.
#[inline(always)]
fn authority_after_scheme(target: &TextView<'_>, start: usize) -> Option<AuthorityPositions>
    requires { start ≡ delimited_length 1 (components_of target.now).scheme }
    ensures { result ≡ option_map (authority_at 2) (components_of target.now).authority }
{
    match target.authority() {
        Some(authority) => Some(shift_authority_back(start, authority)),
        None => None,
    }
}

/// Returns the positions in a reference that is the target's text without its scheme.
#[inline(always)]
pub(crate) fn positions_after_scheme(target: &TextView<'_>) -> Positions
    ensures { let t = components_of target.now in
        result ≡ positions_of (record t { scheme = None }) }
{
    let positions = target.positions();
    match positions.scheme_end {
        None => positions,
        Some(end) => {
            let start = end + 1;
            Positions {
                scheme_end: None,
                authority: authority_after_scheme(target, start),
                path_start: positions.path_start - start,
                path_end: positions.path_end - start,
                query_end: shift_position_back(start, positions.query_end),
            }
        }
    }
}

/// Returns the end of the query, if there is one, in a reference whose path has this length.
#[inline(always)]
fn query_end_after(target: &TextView<'_>, path_len: usize) -> Option<usize>
    requires { path_len ≤ 2 ^ 63 }
    ensures { result
        ≡ option_map (λ q. path_len + 1 + length q) (components_of target.now).query }
{
    if target.has_query() {
        return Some(path_len + target.query_with_delimiter().len());
    }
    None
}

/// Returns the positions in a reference that is a path of this length, followed by the target's
/// query and fragment.
#[inline(always)]
pub(crate) fn positions_with_path(target: &TextView<'_>, path_len: usize) -> Positions
    requires { path_len ≤ 2 ^ 63 }
    ensures { let t = components_of target.now in
        (path : List ℕ) → length path ≡ path_len → result
        ≡ positions_of (record t { scheme = None; authority = None; path = path }) }
{
    Positions {
        scheme_end: None,
        authority: None,
        path_start: 0,
        path_end: path_len,
        query_end: query_end_after(target, path_len),
    }
}

/// Returns the positions in a reference that is a fragment alone, or empty.
#[inline(always)]
pub(crate) fn positions_of_fragment() -> Positions
    ensures { (t : Components) → result ≡ positions_of
        (record t { scheme = None; authority = None; path = []; query = None }) }
{
    Positions {
        scheme_end: None,
        authority: None,
        path_start: 0,
        path_end: 0,
        query_end: None,
    }
}
