//! The start of a path: dot segments, recognised by their bytes, or other segments (RFC 3986,
//! section 3.3).
ghost use Rattle.std.specs.Prelude.{◌≡◌, ◌≤◌, ◌<◌, ◌==◌, ◌||◌, ◌+◌, ◌&&◌, length, drop, slice_index, IsCharBoundary};
ghost use Rattle.uri_pct.specs.Prelude.{full_stop, slash};
ghost use Rattle.uri_parts.specs.Prelude.{IsAbemptyPath};
ghost use Rattle.uri_ops.specs.Models.LeadingSegments.{IsPrefixToSlashDot, DescribesLeadingDots, BeginsWithoutDotSegment, HasLengthAtCharBoundary, IsDotlessPrefix, begins_with_dot, dot_len, ends_segment};
ghost use Rattle.uri_ops.specs.Dots.{is_double_dot};

use uri_pct::lanes::LANES;
use uri_pct::search::len_before_slash_dot;

/// Returns how many bytes the dot takes that a segment begins with, which may be percent-encoded;
/// without a dot none.
#[inline(always)]
fn dot_len(text: &[u8]) -> usize
    ensures bytes { result ≡ dot_len text.now }
    ensures within { result ≤ length text.now }
{
    match text {
        [b'.', ..] => 1,
        [b'%', b'2', b'E' | b'e', ..] => 3,
        _ => 0,
    }
}

/// Returns whether the leading segment of a path ends before this text: it is empty or begins with
/// `/`.
fn ends_segment(text: &[u8]) -> bool
    ensures { result ≡ ends_segment text.now }
{
    matches!(text, [] | [b'/', ..])
}

/// Returns whether a segment is `..`. Each dot may be percent-encoded.
pub(crate) fn is_double_dot(segment: &str) -> bool
    ensures { result ≡ is_double_dot segment.now }
{
    let bytes = segment.as_bytes();
    let first = dot_len(bytes);
    if first == 0 {
        return false;
    }
    let second = dot_len(&bytes[first..]);
    0 < second && first + second == bytes.len()
}

/// Returns whether a path begins with a dot or an octet, as each dot segment does.
#[inline(always)]
pub(crate) fn begins_with_dot(path: &[u8]) -> bool
    ensures { result ≡ begins_with_dot path.now }
{
    matches!(path, [b'.' | b'%', ..])
}

/// Returns the length of a path up to and with the first `/` that has a dot or an octet after it.
///
/// The last window ends with the text and overlaps those before, which have no such `/`.
fn long_dotless_prefix_len(bytes: &[u8]) -> usize
    requires { LANES < length bytes.now }
    ensures { IsPrefixToSlashDot bytes.now result }
{
    let last = bytes.len() - LANES - 1;
    let mut i = 0;
    while i < last {
        let dotless = len_before_slash_dot(bytes, i);
        if dotless < LANES {
            return i + dotless + 1;
        }
        i += LANES;
    }
    let dotless = len_before_slash_dot(bytes, last);
    last + dotless + 1
}

/// Returns how many bytes of a path come before the first segment that begins with a dot or an
/// octet, as each dot segment does. The leading segment is no dot segment.
pub(crate) fn dotless_prefix_len(path: &str) -> usize
    requires some { 0 < length path.now }
    requires first { BeginsWithoutDotSegment path.now }
    ensures dotless { IsDotlessPrefix path.now result }
    ensures some { 0 < result }
    ensures place { IsCharBoundary path.now result }
{
    let bytes = path.as_bytes();
    if bytes.len() > LANES {
        return long_dotless_prefix_len(bytes);
    }
    let mut i = 0;
    while i + 1 < bytes.len() {
        if bytes[i] == b'/' && (bytes[i + 1] == b'.' || bytes[i + 1] == b'%') {
            return i + 1;
        }
        i += 1;
    }
    bytes.len()
}

/// Returns where the segment after the leading one begins, or the end of the path: after the `/`
/// that may be at `end`.
#[inline(always)]
fn next_segment_start(path: &str, end: usize) -> usize
    requires within { end ≤ length path.now }
    requires suffix { IsAbemptyPath (drop end path.now) }
    ensures rest { drop result path.now ≡ drop 1 (drop end path.now) }
    ensures place { IsCharBoundary path.now result }
    ensures from { end ≤ result }
{
    if end < path.len() { end + 1 } else { end }
}

/// The dot segment that a path begins with, and how many bytes that takes, with the `/` after it.
pub(crate) enum LeadingDots {
    /// A single dot.
    SingleDot(usize),
    /// A double dot.
    DoubleDot(usize),
    /// Neither.
    NoDots,
}

/// Returns the dot segment that a path begins with, if any, by the dots at its start.
fn leading_segment(path: &str) -> LeadingDots
    requires { 0 < length path.now }
    ensures leading { DescribesLeadingDots path.now result }
    ensures part { HasLengthAtCharBoundary path.now result }
{
    let bytes = path.as_bytes();
    let first = dot_len(bytes);
    let second = dot_len(&bytes[first..]);
    let end = first + second;
    if end == 0 || !ends_segment(&bytes[end..]) {
        return LeadingDots::NoDots;
    }
    let next = next_segment_start(path, end);
    if second == 0 {
        return LeadingDots::SingleDot(next);
    }
    LeadingDots::DoubleDot(next)
}

/// Returns whether the leading segment of a path is `.`.
fn begins_with_single_dot_segment(path: &[u8]) -> bool
    ensures { result ≡ (slice_index path.now 0 == full_stop
        && (length path.now == 1 || slice_index path.now 1 == slash)) }
{
    matches!(path, [b'.'] | [b'.', b'/', ..])
}

/// Returns whether the leading segment of a path is `..`.
fn begins_with_double_dot_segment(path: &[u8]) -> bool
    ensures { result ≡ (slice_index path.now 0 == full_stop && slice_index path.now 1 == full_stop
        && (length path.now == 2 || slice_index path.now 2 == slash)) }
{
    matches!(path, [b'.', b'.'] | [b'.', b'.', b'/', ..])
}

/// Returns the dot segment that a path begins with, if any. It tests literal dots first.
#[inline(always)]
pub(crate) fn leading_dot_segment(path: &str) -> LeadingDots
    requires { 0 < length path.now }
    ensures leading { DescribesLeadingDots path.now result }
    ensures part { HasLengthAtCharBoundary path.now result }
{
    let bytes = path.as_bytes();
    if begins_with_double_dot_segment(bytes) {
        return LeadingDots::DoubleDot(next_segment_start(path, 2));
    }
    if begins_with_single_dot_segment(bytes) {
        return LeadingDots::SingleDot(next_segment_start(path, 1));
    }
    if dot_len(bytes) == 0 {
        return LeadingDots::NoDots;
    }
    leading_segment(path)
}
