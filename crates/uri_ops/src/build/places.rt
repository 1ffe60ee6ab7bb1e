//! Where the parts of a builder are in its text.
ghost use Rattle.std.specs.Prelude.{◌≡◌, ◌+◌, ◌≤◌, IfSome, length};
ghost use Rattle.uri_parts.specs.Prelude.{authority_text};
ghost use Rattle.uri_ops.specs.Models.DraftPlaces.{IsHostAt, authority_positions_from_length, positions_from_lengths, delimited_len};

use crate::build::lengths::Lengths;
use uri_parts::component::Authority;
use uri_parts::positions::{AuthorityPositions, Positions};
use uri_pct::encoder::Encoder;

/// Where the host begins and ends in the authority, if there is one.
#[doc(hidden)]
#[derive(Clone, Copy)]
pub struct HostRange {
    pub start: usize,
    pub end: usize,
}

/// Returns where the host is in an authority that a builder gets as a whole.
pub(crate) fn host_place<U: Encoder, N: Encoder>(authority: Authority<'_, U, N>) -> HostRange
    ensures { IsHostAt result (authority_text authority.entry) }
{
    let host_len = authority.host().len();
    let start = match authority.userinfo() {
        Some(userinfo) => userinfo.len() + 1,
        None => 0,
    };
    HostRange {
        start,
        end: start + host_len,
    }
}

/// Returns the position after a part of a builder's text and its delimiters, or the same position
/// without the part.
#[inline(always)]
fn suffix(place: usize, marks: usize, part: Option<usize>, text: &str) -> usize
    requires { place + delimited_len marks part ≤ length text.now }
    ensures { result ≡ place + delimited_len marks part }
{
    match part {
        Some(len) => place + (marks + len),
        None => place,
    }
}

/// Returns the positions of a built authority by its start, its length and where its host is.
#[inline(always)]
fn authority_positions_from_length(
    start: usize,
    len: usize,
    host: HostRange,
    text: &str,
) -> AuthorityPositions
    requires inside { start + len ≤ length text.now }
    requires host_start { host.start ≤ len }
    requires host_end { host.end ≤ len }
    ensures { result ≡ authority_positions_from_length start host len }
{
    AuthorityPositions {
        start,
        host_start: start + host.start,
        host_end: start + host.end,
        end: start + len,
    }
}

/// Returns the positions of components by the lengths of a builder's parts.
#[inline(always)]
pub(crate) fn positions_from_lengths(lengths: &Lengths, host: HostRange, text: &str) -> Positions
    requires inside { delimited_len 1 lengths.now.scheme + delimited_len 2 lengths.now.authority
        + delimited_len 0 lengths.now.path + delimited_len 1 lengths.now.query ≤ length text.now }
    requires host_start { IfSome lengths.now.authority (λ len. host.start ≤ len) }
    requires host_end { IfSome lengths.now.authority (λ len. host.end ≤ len) }
    ensures { result ≡ positions_from_lengths lengths.now host }
{
    let from_scheme_end = suffix(0, 1, lengths.scheme, text);
    let path_start = suffix(from_scheme_end, 2, lengths.authority, text);
    let path_end = suffix(path_start, 0, lengths.path, text);
    Positions {
        scheme_end: lengths.scheme,
        authority: match lengths.authority {
            Some(len) => Some(authority_positions_from_length(
                from_scheme_end + 2,
                len,
                host,
                text,
            )),
            None => None,
        },
        path_start,
        path_end,
        query_end: match lengths.query {
            Some(len) => Some(path_end + 1 + len),
            None => None,
        },
    }
}
