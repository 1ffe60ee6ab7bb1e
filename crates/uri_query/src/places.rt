//! Where the pairs of a query are.
ghost use Rattle.std.specs.Prelude.{◌≡◌, ◌==◌, ◌<◌, ◌≤◌, [], MatchOption, drop, false, length, slice_index};
ghost use Rattle.uri_query.specs.Pairs.{ampersand, nonempty_substrings};
ghost use Rattle.uri_query.specs.Places.{IsNextPair};

use uri_pct::search::find_byte;

/// Where a pair is in a query, by positions in bytes.
///
/// Its name is from `start` up to `name_end`. If that is `end`, the pair has no `=`. Else its value
/// is after the `=` at `name_end`, up to `end`.
#[derive(Clone, Copy, Debug)]
pub struct PairPlace {
    pub start: usize,
    pub name_end: usize,
    pub end: usize,
}

/// Returns the first position from `from` on at which a query has no `&`.
fn skip_ampersands(query: &[u8], from: usize) -> usize
    requires { from ≤ length query.now }
    ensures from { from ≤ result }
    ensures within { result ≤ length query.now }
    ensures left { nonempty_substrings (drop from query.now)
        ≡ nonempty_substrings (drop result query.now) }
    ensures other { result < length query.now
        → (slice_index query.now result == ampersand) ≡ false }
{
    let mut at = from;
    while at < query.len() && query[at] == b'&' {
        at += 1;
    }
    at
}

/// Returns where the next pair of a query is, from a position on: the first substring between its
/// `&` that is not empty, cut at its first `=` (RFC 3986, section 3.4).
///
/// # Conditions
///
/// The position is at most the length of the query: 0, or the `end` of the pair before.
///
/// # Examples
///
/// In `a=1&&b` the pairs end at 3 and at 6, and the second one has no `=`.
pub fn next_pair(query: &[u8], from: usize) -> Option<PairPlace>
    requires { from ≤ length query.now }
    ensures { MatchOption result (nonempty_substrings (drop from query.now) ≡ [])
        (λ place. IsNextPair query.now from place) }
{
    let start = skip_ampersands(query, from);
    if start == query.len() {
        return None;
    }
    let end = find_byte(b'&', query, start);
    let name_end = find_byte(b'=', &query[..end], start);
    Some(PairPlace {
        start,
        name_end,
        end,
    })
}
