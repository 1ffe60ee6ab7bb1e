//! The removal of dot segments from any path (RFC 3986, section 5.2.4), as it is printed.
ghost use Rattle.std.specs.Prelude.{◌≡◌, ◌<◌, ◌≤◌, ◌++◌, ◌-◌, ℕ, List, IfOk, OnOk, bytes_eq, codes, drop, false, length, slice_index, string_bytes, take, IsUtf8};
ghost use Rattle.uri_pct.specs.Prelude.{Pushes, slash};
ghost use Rattle.uri_ops.specs.Prelude.{EndsInSlash, before_last_slash, has_slash, up_to_last_slash};
ghost use Rattle.uri_basic.specs.Models.Directories.{IsDirectoryOrNothing, after_segment, parent, path_left};
ghost use Rattle.uri_basic.specs.Removal.{remove_dot_segments};

use std::alloc::AllocError;
use uri_pct::search::find_byte;

/// Returns where the last segment of a directory begins: after the `/` that is before it, or at the
/// start.
fn last_segment_start(directory: &[u8]) -> usize
    requires { EndsInSlash directory.now }
    ensures within { result < length directory.now }
    ensures slash { 0 < result → slice_index directory.now (result - 1) ≡ slash }
    ensures before { take result directory.now
        ≡ up_to_last_slash (before_last_slash directory.now) }
{
    let mut start = directory.len() - 1;
    while start > 0 && directory[start - 1] != b'/' {
        start -= 1;
    }
    start
}

/// Replaces the directory that is in `out` from `start` on by its parent, to which a `..` leads.
fn pop_segment(start: usize, out: &mut String) -> Result<(), AllocError>
    requires start { start ≤ length (string_bytes out.old) }
    requires prefix { IsUtf8 (take start (string_bytes out.old)) }
    requires kept { IsDirectoryOrNothing (drop start (string_bytes out.old)) }
    ensures { OnOk result (string_bytes out.new
        ≡ take start (string_bytes out.old) ++ parent (drop start (string_bytes out.old))) }
{
    if out.len() == start {
        return Ok(());
    }
    let kept = last_segment_start(&out.as_bytes()[start..]);
    out.truncate(start + kept);
    if kept == 0 {
        out.push('/')?;
    }
    Ok(())
}

/// Returns whether a segment is `.`. One that is percent-encoded is not.
fn is_single_dot(segment: &str) -> bool
    ensures { result ≡ bytes_eq segment.now (codes ".") }
{
    segment == "."
}

/// Returns whether a segment is `..`. One that is percent-encoded is not.
fn is_double_dot(segment: &str) -> bool
    ensures { result ≡ bytes_eq segment.now (codes "..") }
{
    segment == ".."
}

/// Appends a piece of a path, which is this segment and may end in `/`, to the directory that is in
/// `out` from `start` on. A dot segment is not appended, and a double dot goes to the parent.
fn push_segment(
    segment: &str,
    piece: &str,
    start: usize,
    out: &mut String,
) -> Result<(), AllocError>
    requires start { start ≤ length (string_bytes out.old) }
    requires prefix { IsUtf8 (take start (string_bytes out.old)) }
    requires kept { IsDirectoryOrNothing (drop start (string_bytes out.old)) }
    ensures { OnOk result (string_bytes out.new
        ≡ take start (string_bytes out.old)
        ++ after_segment (drop start (string_bytes out.old)) segment.now piece.now) }
{
    if is_single_dot(segment) {
        return Ok(());
    }
    if is_double_dot(segment) {
        return pop_segment(start, out);
    }
    out.push_str(piece)
}

/// Appends the segments of a path that a `/` follows, without dot segments, to the directory that
/// is in `out` from `start` on. Returns the last segment, which is not appended.
fn push_directories<'a>(
    path: &'a str,
    start: usize,
    out: &mut String,
) -> Result<&'a str, AllocError>
    requires start { start ≤ length (string_bytes out.old) }
    requires prefix { IsUtf8 (take start (string_bytes out.old)) }
    requires kept { IsDirectoryOrNothing (drop start (string_bytes out.old)) }
    ensures last { IfOk result (λ last. path.now ≡ up_to_last_slash path.now ++ last.now) }
    ensures lacks { IfOk result (λ last. has_slash last.now ≡ false) }
    ensures start { OnOk result (start ≤ length (string_bytes out.new)) }
    ensures before { OnOk result
        (take start (string_bytes out.new) ≡ take start (string_bytes out.old)) }
    ensures kept { OnOk result (IsDirectoryOrNothing (drop start (string_bytes out.new))) }
    ensures left { OnOk result ((rest : List ℕ)
        → path_left (drop start (string_bytes out.new)) rest
        ≡ path_left (drop start (string_bytes out.old)) (up_to_last_slash path.now ++ rest)) }
{
    let mut done = 0;
    let mut end = find_byte(b'/', path.as_bytes(), 0);
    while end < path.len() {
        push_segment(&path[done..end], &path[done..end + 1], start, out)?;
        done = end + 1;
        end = find_byte(b'/', path.as_bytes(), done);
    }
    Ok(&path[done..])
}

/// Appends a path without its dot segments (RFC 3986, section 5.2.4).
pub(crate) fn push_without_dot_segments(path: &str, out: &mut String) -> Result<(), AllocError>
    ensures { OnOk result (Pushes out.old out.new (remove_dot_segments path.now)) }
{
    let start = out.len();
    let last = push_directories(path, start, out)?;
    push_segment(last, last, start, out)
}

/// Appends a reference's path after all but the last segment of a base's, without dot segments (RFC
/// 3986, sections 5.2.3 and 5.2.4). The two paths are scanned one after the other, never joined.
pub(crate) fn push_merged(base: &str, reference: &str, out: &mut String) -> Result<(), AllocError>
    ensures { OnOk result (Pushes out.old out.new
        (remove_dot_segments (up_to_last_slash base.now ++ reference.now))) }
{
    let start = out.len();
    let _base_segment = push_directories(base, start, out)?;
    let last = push_directories(reference, start, out)?;
    push_segment(last, last, start, out)
}
