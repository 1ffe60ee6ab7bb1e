//! Paths that lead from a base's path to another (RFC 3986, sections 4.2 and 5.2.3).
ghost use Rattle.std.specs.Prelude.{◌≡◌, ◌<◌, ◌≤◌, ◌+◌, ℕ, List, None, OnOk, ◌^◌, false, length, slice_index, take, true};
ghost use Rattle.uri_pct.specs.Prelude.{Pushes, slash};
ghost use Rattle.uri_parts.specs.Prelude.{IsAbemptyPath, has_colon_in_first_segment};
ghost use Rattle.uri_ops.specs.Prelude.{IsAbsolute, guarded, is_empty, lacks_dot_segments};
ghost use Rattle.uri_relative.specs.Relative.{IsLongestPrefix, IsPathTo, IsSharedPrefix, double_dots as double_dots_text, needs_leading_dot, relative_path, slashes};
ghost use Rattle.uri_relative.specs.Rule.{shortest_or_preferred_path};
ghost use Rattle.uri_relative.specs.Shortest.{IsShortestPath};

use std::alloc::AllocError;
use uri_ops::build::draft::has_colon_in_first_segment;
use uri_ops::path::dot_segments::{has_dot_segments, last_slash, path_or_slash};
use uri_ops::path::slashes::{begins_with_slash, begins_with_two_slashes};

/// Returns the length of the longest prefix that the paths of a base and a target share.
fn shared_prefix_len(one: &[u8], other: &[u8]) -> usize
    ensures in_one { result ≤ length one.now }
    ensures in_other { result ≤ length other.now }
    ensures same { take result one.now ≡ take result other.now }
    ensures most { result < length one.now → result < length other.now
        → slice_index one.now result ≡ slice_index other.now result → ⊥ }
{
    let mut i = 0;
    while i < one.len() && i < other.len() && one[i] == other[i] {
        i += 1;
    }
    i
}

/// Returns the position of the last `/` in the longest prefix that the paths of a base and a target
/// share.
fn last_shared_slash(base: &[u8], path: &[u8]) -> usize
    requires base { IsAbsolute base.now }
    requires path { IsAbsolute path.now }
    ensures shared { IsSharedPrefix (result + 1) base.now path.now }
    ensures longest { IsLongestPrefix (result + 1) base.now path.now }
    ensures in_base { result < length base.now }
    ensures in_path { result < length path.now }
    ensures base_at { slice_index base.now result ≡ slash }
    ensures path_at { slice_index path.now result ≡ slash }
{
    let shared = shared_prefix_len(base, path);
    last_slash(&base[..shared], 0)
}

/// Returns how many slashes are in the rest of a base's path: a relative path goes up as often.
fn count_slashes(text: &[u8]) -> usize
    ensures { result ≡ slashes text.now }
{
    text.iter().filter(|byte| **byte == b'/').count()
}

/// Returns whether a relative path would be parsed otherwise without `./` before it: as an absolute
/// path, or as a scheme (RFC 3986, section 4.2).
fn needs_leading_dot(path: &[u8]) -> bool
    ensures { result ≡ needs_leading_dot path.now }
{
    begins_with_slash(path) || has_colon_in_first_segment(path)
}

/// Appends the beginning of a relative path: this many `../`.
fn push_double_dots(double_dots: usize, out: &mut String) -> Result<(), AllocError>
    ensures { OnOk result (Pushes out.old out.new (double_dots_text double_dots)) }
{
    for done in 0..double_dots {
        out.push_str("../")?;
    }
    Ok(())
}

/// Returns whether the rest of a relative path, after its `../`, is empty.
fn is_empty(text: &[u8]) -> bool
    ensures { result ≡ is_empty text.now }
{
    matches!(text, [])
}

/// Appends the shortest path that goes up by this many directories, and from there to the rest.
fn push_relative_path(double_dots: usize, rest: &str, out: &mut String) -> Result<(), AllocError>
    ensures { OnOk result (Pushes out.old out.new (relative_path double_dots rest.now)) }
{
    if double_dots == 0 {
        return push_path_without_double_dots(rest, out);
    }
    if is_empty(rest.as_bytes()) {
        push_double_dots(double_dots - 1, out)?;
        return out.push_str("..");
    }
    push_double_dots(double_dots, out)?;
    out.push_str(rest)
}

/// Appends the shortest relative path that goes to the rest, and up by no directory.
fn push_path_without_double_dots(rest: &str, out: &mut String) -> Result<(), AllocError>
    ensures { OnOk result (Pushes out.old out.new (relative_path 0 rest.now)) }
{
    if is_empty(rest.as_bytes()) {
        return out.push_str(".");
    }
    if needs_leading_dot(rest.as_bytes()) {
        out.push_str("./")?;
    }
    out.push_str(rest)
}

/// Appends the path from the root to a reference, with the guard `/.` if it begins with `//`.
fn push_guarded_path(path: &str, out: &mut String) -> Result<(), AllocError>
    ensures { OnOk result (Pushes out.old out.new (guarded None path.now)) }
{
    if begins_with_two_slashes(path.as_bytes()) {
        out.push_str("/.")?;
    }
    out.push_str(path)
}

/// Returns the length of the guard that a reference's path from the root needs.
fn guard_len(path: &str) -> usize
    ensures within { result ≤ 2 }
    ensures length { length (guarded None path.now) ≡ result + length path.now }
{
    if begins_with_two_slashes(path.as_bytes()) {
        2
    } else {
        0
    }
}

/// Returns whether the relative path that goes up by this many directories, and from there to the
/// rest, is no longer than the path from the root, which has `prefix` bytes before the rest.
fn is_relative_no_longer(double_dots: usize, rest: &str, prefix: usize) -> bool
    requires some { 0 < prefix }
    requires fits { prefix ≤ 2 ^ 63 + 2 }
    ensures short { result ≡ true
        → length (relative_path double_dots rest.now) ≤ prefix + length rest.now }
    ensures longer { result ≡ false
        → prefix + length rest.now < length (relative_path double_dots rest.now) }
{
    if double_dots > 0 {
        return double_dots <= (prefix + is_empty(rest.as_bytes()) as usize) / 3;
    }
    if prefix >= 2 {
        return true;
    }
    !needs_leading_dot(rest.as_bytes())
}

/// Returns whether the reference has the relative path: it is preferred, or no longer than the path
/// from the root.
fn uses_relative_path(prefers_relative: bool, double_dots: usize, rest: &str, prefix: usize) -> bool
    requires some { 0 < prefix }
    requires fits { prefix ≤ 2 ^ 63 + 2 }
    ensures preferred { result ≡ false → prefers_relative ≡ false }
    ensures short { result ≡ true → prefers_relative ≡ false
        → length (relative_path double_dots rest.now) ≤ prefix + length rest.now }
    ensures longer { result ≡ false
        → prefix + length rest.now < length (relative_path double_dots rest.now) }
{
    prefers_relative || is_relative_no_longer(double_dots, rest, prefix)
}

/// Appends a path that leads from the base's path to another. It is relative if the base's path has
/// no dot segment, and it is preferred or no longer than the path from the root. Otherwise it is
/// the path from the root.
pub(crate) fn push_path(
    base: &str,
    path: &str,
    prefers_relative: bool,
    out: &mut String,
) -> Result<(), AllocError>
    requires base { IsAbemptyPath base.now }
    requires path { IsAbsolute path.now }
    requires dotless { lacks_dot_segments path.now ≡ true }
    ensures way { OnOk result ((way : List ℕ) × Pushes out.old out.new way
        × IsPathTo base.now path.now way
        × (prefers_relative ≡ false → length way ≤ length (guarded None path.now))
        × (prefers_relative ≡ false → IsShortestPath base.now path.now way)) }
    ensures text { OnOk result (Pushes out.old out.new
        (shortest_or_preferred_path prefers_relative base.now path.now)) }
{
    let base = path_or_slash(base);
    if has_dot_segments(base) {
        return push_guarded_path(path, out);
    }
    let last = last_shared_slash(base.as_bytes(), path.as_bytes());
    let double_dots = count_slashes(&base.as_bytes()[last + 1..]);
    let rest = &path[last + 1..];
    let guard = guard_len(path);
    if uses_relative_path(prefers_relative, double_dots, rest, last + 1 + guard) {
        return push_relative_path(double_dots, rest, out);
    }
    push_guarded_path(path, out)
}
