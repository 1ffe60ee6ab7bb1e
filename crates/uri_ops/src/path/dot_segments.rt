//! The removal of dot segments (RFC 3986, section 5.2.4).
ghost use Rattle.std.specs.Prelude.{◌≡◌, ◌≤◌, ◌<◌, ◌++◌, ◌+◌, IfOk, OnOk, false, true, length, ℕ, ◌^◌, drop, not, take, string_bytes, IsCharBoundary};
ghost use Rattle.std.specs.Int.{bit_at};
ghost use Rattle.uri_pct.specs.Prelude.{Pushes};
ghost use Rattle.uri_parts.specs.Prelude.{IsAbemptyPath};
ghost use Rattle.uri_ops.specs.Models.Directories.{BeginsWith, EndsIn, IsDotlessDirectory, RemovalState, parent_directory};
ghost use Rattle.uri_ops.specs.Models.LeadingSegments.{BeginsWithoutDotSegment};
ghost use Rattle.uri_ops.specs.Models.SegmentModes.{KeepsSlashesAndDots};
ghost use Rattle.uri_ops.specs.Models.Places.{IsSlashOrStart};
ghost use Rattle.uri_ops.specs.Dots.{IsAbsolute, before_last_slash, directory, has_slash, is_double_dot, is_empty, lacks_dot_segments, or_slash, remove_dot_segments, underflows};
ghost use Rattle.uri_ops.specs.Target.{merged};

use crate::path::leading_segment::{
    LeadingDots, begins_with_dot, dotless_prefix_len, is_double_dot, leading_dot_segment,
};
use crate::path::segment_mode::{Copied, SegmentMode};
use std::alloc::AllocError;
use uri_pct::lanes::{LANES, lanes_equal_to};

/// Returns the highest lane that a mask of sixteen lanes has.
#[inline(always)]
fn last_lane(mask: u64) -> usize
    requires some { 0 < mask }
    requires below { mask < 2 ^ 16 }
    ensures within { result < 16 }
    ensures lane { bit_at mask result ≡ 1 }
    ensures above { (k : ℕ) → result < k → bit_at mask k ≡ 0 }
{
    63 - mask.leading_zeros() as usize
}

/// Returns the position of a path's last `/` that is not before `start`, or `start` if there is
/// none. The text has none from `limit` on. It searches byte by byte: most segments are short.
#[inline(always)]
fn last_slash_before(bytes: &[u8], start: usize, limit: usize) -> usize
    requires from { start ≤ limit }
    requires within { limit ≤ length bytes.now }
    requires none { has_slash (drop limit bytes.now) ≡ false }
    ensures prefix { take result bytes.now
        ≡ take start bytes.now ++ before_last_slash (drop start bytes.now) }
    ensures last { has_slash (drop (result + 1) bytes.now) ≡ false }
    ensures place { IsSlashOrStart bytes.now start result }
{
    let mut end = limit;
    while start < end {
        end -= 1;
        if bytes[end] == b'/' {
            return end;
        }
    }
    start
}

/// Returns the position of a path's last `/` that is not before `start`, or `start` if there is
/// none. It searches sixteen bytes at a time.
pub fn last_slash(bytes: &[u8], start: usize) -> usize
    requires { start ≤ length bytes.now }
    ensures prefix { take result bytes.now
        ≡ take start bytes.now ++ before_last_slash (drop start bytes.now) }
    ensures last { has_slash (drop (result + 1) bytes.now) ≡ false }
    ensures place { IsSlashOrStart bytes.now start result }
{
    let mut left = bytes.len();
    while left - start >= LANES {
        let block = left - LANES;
        let mask = lanes_equal_to(b'/', bytes, block);
        if mask != 0 {
            return block + last_lane(mask);
        }
        left = block;
    }
    last_slash_before(bytes, start, left)
}

/// Cuts off the last segment of the directory that is in `out` from `start` on, with the `/`
/// after it, and returns whether there is none.
fn pop_segment(start: usize, out: &mut String) -> bool
    requires { IsDotlessDirectory (drop start (string_bytes out.old)) }
    ensures bytes { string_bytes out.new
        ≡ take start (string_bytes out.old)
        ++ parent_directory (drop start (string_bytes out.old)) }
    ensures none { result ≡ is_empty (before_last_slash (drop start (string_bytes out.old))) }
{
    let end = out.len() - 1;
    let bytes = &out.as_bytes()[..end];
    let slash = last_slash_before(bytes, start, bytes.len());
    out.truncate(slash + 1);
    end == start
}

/// Returns whether a path that begins with `/` has a dot segment to remove (RFC 3986, section 3.3).
/// A dot counts percent-encoded too.
pub fn has_dot_segments(path: &str) -> bool
    requires { IsAbsolute path.now }
    ensures { result ≡ not (lacks_dot_segments path.now) }
{
    let dotless = dotless_prefix_len(path);
    let mut done = dotless;
    while done < path.len() {
        let rest = &path[done..];
        match leading_dot_segment(rest) {
            LeadingDots::NoDots => done += dotless_prefix_len(rest),
            LeadingDots::SingleDot(_) => return true,
            LeadingDots::DoubleDot(_) => return true,
        }
    }
    false
}

/// Appends the segments of a path, in the mode given, without dot segments, to the directory that
/// is in `out` from `start` on. Returns whether a double dot had nothing left to remove.
///
/// Segments that can't be dot segments are appended together, with the `/` between them. The
/// function is inlined, so that the mode is a constant for each caller.
#[inline(always)]
pub(crate) fn push_segments<M: SegmentMode>(
    mode: M,
    path: &str,
    start: usize,
    out: &mut String,
) -> Result<bool, AllocError>
    requires directory { IsDotlessDirectory (drop start (string_bytes out.old)) }
    requires keeps { KeepsSlashesAndDots (M.pushed_text mode) (M.takes mode) }
    requires takes { M.takes mode path.now ≡ true }
    ensures before { IfOk result (λ _.
        take start (string_bytes out.new) ≡ take start (string_bytes out.old)) }
    ensures text { IfOk result (λ _. drop start (string_bytes out.new)
        ≡ remove_dot_segments
        (drop start (string_bytes out.old) ++ M.pushed_text mode path.now)) }
    ensures underflow { IfOk result (λ underflowed. underflowed
        ≡ underflows (drop start (string_bytes out.old) ++ M.pushed_text mode path.now)) }
{
    let mut underflowed = false;
    let mut rest = path;
    while !rest.is_empty() {
        match leading_dot_segment(rest) {
            LeadingDots::SingleDot(next) => rest = &rest[next..],
            LeadingDots::DoubleDot(next) => {
                underflowed |= pop_segment(start, out);
                rest = &rest[next..];
            }
            LeadingDots::NoDots => {
                let next = dotless_prefix_len(rest);
                mode.push(&rest[..next], out)?;
                rest = &rest[next..];
            }
        }
    }
    Ok(underflowed)
}

/// Appends a path that begins with `/`, without its dot segments (RFC 3986, section 5.2.4). Returns
/// whether a double dot had nothing left to remove. A percent-encoded dot counts as a dot.
///
/// # Errors
///
/// Only if allocation fails; part of the path may then have been appended.
#[doc(hidden)]
pub fn push_without_dot_segments(path: &str, out: &mut String) -> Result<bool, AllocError>
    requires { IsAbsolute path.now }
    ensures text { OnOk result (Pushes out.old out.new (remove_dot_segments path.now)) }
    ensures underflow { IfOk result (λ underflowed. underflowed ≡ underflows path.now) }
{
    let start = out.len();
    let dotless = dotless_prefix_len(path);
    out.push_str(&path[..dotless])?;
    if dotless == path.len() {
        return Ok(false);
    }
    let underflowed = push_segments(Copied, &path[dotless..], start, out)?;
    Ok(underflowed)
}

/// Returns the end of the directory of a base's path (RFC 3986, section 5.2.3): after its last `/`,
/// or at the path's end if that is a double dot, which denotes a directory.
fn directory_end(path: &str) -> usize
    requires { IsAbsolute path.now }
    ensures text { remove_dot_segments (take result path.now)
        ≡ remove_dot_segments (directory path.now) }
    ensures underflow { underflows (take result path.now) ≡ underflows (directory path.now) }
    ensures absolute { 0 < result }
    ensures place { IsCharBoundary path.now result }
{
    let slash = last_slash(path.as_bytes(), 0);
    if is_double_dot(&path[slash + 1..]) {
        return path.len();
    }
    slash + 1
}

/// Returns the base's path, or `/` for an empty one, which has the same directory.
pub fn path_or_slash(path: &str) -> &str
    requires { IsAbemptyPath path.now }
    ensures root { result.now ≡ or_slash path.now }
    ensures absolute { IsAbsolute result.now }
    ensures directory { directory result.now ≡ directory path.now }
    ensures dotless { lacks_dot_segments result.now ≡ lacks_dot_segments path.now }
{
    if path.is_empty() { "/" } else { path }
}

/// Returns the parent of a directory, which a `..` leads to; that of `/` is `/`.
fn parent(directory: &str) -> &str
    requires { IsDotlessDirectory directory.now }
    ensures parent { result.now ≡ parent_directory directory.now }
    ensures prefix { BeginsWith directory.now result.now }
{
    let end = directory.len() - 1;
    let before = &directory.as_bytes()[..end];
    let slash = last_slash(before, 0);
    &directory[..slash + 1]
}

/// Follows the dot segments that a reference begins with from a directory. Returns what is left of
/// the directory, what is left of the reference, and whether a double dot had nothing left to
/// remove.
pub(crate) fn follow_leading_dots<'a>(
    directory: &'a str,
    reference: &'a str,
) -> (&'a str, &'a str, bool)
    requires { IsDotlessDirectory directory.now }
    ensures kept { IsDotlessDirectory result.0.now }
    ensures prefix { BeginsWith directory.now result.0.now }
    ensures suffix { EndsIn reference.now result.1.now }
    ensures first { BeginsWithoutDotSegment result.1.now }
    ensures left { RemovalState (directory.now ++ reference.now) result.0.now
        result.1.now result.2 }
{
    let mut kept = directory;
    let mut rest = reference;
    let mut underflowed = false;
    while begins_with_dot(rest.as_bytes()) {
        match leading_dot_segment(rest) {
            LeadingDots::SingleDot(next) => rest = &rest[next..],
            LeadingDots::DoubleDot(next) => {
                underflowed |= kept.len() == 1;
                kept = parent(kept);
                rest = &rest[next..];
            }
            LeadingDots::NoDots => return (kept, rest, underflowed),
        }
    }
    (kept, rest, underflowed)
}

/// Appends a reference's path after the directory of a base's path (RFC 3986, section 5.2.3),
/// without dot segments. Returns whether a double dot had nothing left to remove. The two paths are
/// scanned one after the other, and never joined.
pub(crate) fn push_merged(base: &str, reference: &str, out: &mut String) -> Result<bool, AllocError>
    requires { IsAbemptyPath base.now }
    ensures text { OnOk result (Pushes out.old out.new
        (remove_dot_segments (merged base.now reference.now))) }
    ensures underflow { IfOk result (λ underflowed. underflowed
        ≡ underflows (merged base.now reference.now)) }
{
    let base = path_or_slash(base);
    let directory = &base[..directory_end(base)];
    let start = out.len();
    let of_base = push_without_dot_segments(directory, out)?;
    let of_reference = push_segments(Copied, reference, start, out)?;
    Ok(of_base | of_reference)
}
