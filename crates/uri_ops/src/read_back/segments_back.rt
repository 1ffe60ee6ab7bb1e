//! The segments that are left of a path when its dot segments are removed, from the last to the
//! first (RFC 3986, section 5.2.4).
ghost use Rattle.std.specs.Prelude.{◌≡◌, ◌≤◌, ◌<◌, ◌+◌, ◌^◌, ◌++◌, ℕ, List, [], IfSome, MatchOption, codes, false, true, if◌then◌else◌};
ghost use Rattle.uri_ops.specs.Dots.{IsAbsolute, has_slash, is_dot_segment, is_double_dot, is_single_dot, remove_dot_segments};
ghost use Rattle.uri_ops.specs.FromEnd.SegmentsLeft.{IsLastSegmentLeft, is_abempty_path, segments_left, with_segment, without_last_segments};

use crate::path::leading_segment::is_double_dot;

/// Returns whether a segment is `.`, also percent-encoded.
fn is_single_dot(segment: &str) -> bool
    ensures { result ≡ is_single_dot segment.now }
{
    segment == "." || segment == "%2E" || segment == "%2e"
}

/// Returns whether a segment is `.` or `..`, also percent-encoded.
fn is_dot_segment(segment: &str) -> bool
    ensures { result ≡ is_dot_segment segment.now }
{
    is_single_dot(segment) || is_double_dot(segment)
}

/// Returns how many segments before this one are taken by double dots, if `climbs` of this one and
/// those before it are. Returns `None` if this one is left.
fn climbs_before(segment: &str, climbs: usize) -> Option<usize>
    requires lacks { has_slash segment.now ≡ false }
    requires fits { climbs + 1 < 2 ^ 64 }
    ensures kept { MatchOption result ((climbs ≡ 0) × (is_dot_segment segment.now ≡ false))
        (λ before. (left : List ℕ)
        → without_last_segments climbs (with_segment left segment.now)
        ≡ without_last_segments before left) }
    ensures small { IfSome result (λ before. before ≤ climbs + 1) }
{
    if is_single_dot(segment) {
        return Some(climbs);
    }
    if is_double_dot(segment) {
        return Some(climbs + 1);
    }
    if climbs == 0 {
        return None;
    }
    Some(climbs - 1)
}

/// Returns the last segment that is left of a path when its dot segments are removed, after the
/// prefix of the path that the others that are left are in. Returns `None` if none is left.
///
/// Of `/a/b/../c` this is `/a/b/..` and `c`; of `/a/b/..` it is the empty prefix and `a`.
pub(crate) fn split_last_segment<'a>(path: &'a str) -> Option<(&'a str, &'a str)>
    requires { is_abempty_path path.now ≡ true }
    ensures { MatchOption result (segments_left path.now ≡ [])
        (λ cut. IsLastSegmentLeft path.now cut.0.now cut.1.now) }
{
    let mut rest = path;
    let mut climbs = 0;
    while let Some((prefix, segment)) = rest.rsplit_once('/') {
        match climbs_before(segment, climbs) {
            Some(before) => climbs = before,
            None => return Some((prefix, segment)),
        }
        rest = prefix;
    }
    None
}

/// Returns whether a path that begins with `/` ends in a dot segment, which leaves a `/`.
pub(crate) fn ends_in_dot_segment(path: &str) -> bool
    requires { IsAbsolute path.now }
    ensures { remove_dot_segments path.now
        ≡ segments_left path.now ++ (if result then codes "/" else []) }
{
    match path.rsplit_once('/') {
        Some((_, last)) => is_dot_segment(last),
        None => false,
    }
}
