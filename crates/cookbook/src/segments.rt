//! A path from segments that a user typed.
ghost use Rattle.std.specs.Prelude.{◌≡◌, false, if◌then◌else◌, IfOk, IsOk, IsOkUnless, []};
ghost use Rattle.std.specs.List.{list_any};
ghost use Rattle.fluent_uri.specs.Prelude.{owned_text};
ghost use Rattle.cookbook.specs.Segments.{is_dot_segment, path_from};
ghost use Rattle.cookbook.specs.declared.segments.PathError.TheVariants.{OutOfMemory};

use fluent_uri::pct_enc::EString;
use fluent_uri::pct_enc::encoder::{Data, Path};
use std::alloc::{AllocError, Global};
use thiserror::Error;

/// Why segments have no path.
#[derive(Clone, Copy, Debug, PartialEq, Eq, Error)]
pub enum PathError {
    /// One is `.` or `..`, which no encoding keeps from being removed (RFC 3986, sections 2.3
    /// and 6.2.2.3).
    #[error("segment is `.` or `..`")]
    DotSegment,
    /// Allocation failed.
    #[error("out of memory")]
    OutOfMemory,
}

impl From<AllocError> for PathError {
    ghost from_gives = { λ _ e. e ≡ OutOfMemory };

    /// Returns the error `OutOfMemory` of a path of typed segments for a failed allocation.
    fn from(_: AllocError) -> PathError {
        PathError::OutOfMemory
    }
}

/// Returns the path of segments that a user typed, whatever characters they have: each one
/// percent-encoded as data, after a `/`.
///
/// # Errors
///
/// `DotSegment` exactly if a segment is `.` or `..`; `OutOfMemory` if allocation fails.
///
/// # Examples
///
/// Of `a b` and `c/d` it is `/a%20b/c%2Fd`.
pub fn path_of(alloc: Global, segments: &[String]) -> Result<EString<Path>, PathError>
    ensures path { IfOk result (λ path. owned_text path ≡ path_from [] segments.now) }
    ensures no_dots { IsOk result → list_any is_dot_segment segments.now ≡ false }
    ensures refused { IsOkUnless result
        (if list_any is_dot_segment segments.now then PathError.DotSegment
        else PathError.OutOfMemory) }
{
    if has_dot_segment(segments) {
        return Err(PathError::DotSegment);
    }
    Ok(joined(alloc, segments)?)
}

/// Returns whether one of the segments that a user typed is `.` or `..`.
fn has_dot_segment(segments: &[String]) -> bool
    ensures { result ≡ list_any is_dot_segment segments.now }
{
    segments.iter().any(|segment| segment.as_str() == "." || segment.as_str() == "..")
}

/// Returns the path of segments that a user typed, each percent-encoded as data after a `/`.
fn joined(alloc: Global, segments: &[String]) -> Result<EString<Path>, AllocError>
    ensures { IfOk result (λ path. owned_text path ≡ path_from [] segments.now) }
{
    let mut path = EString::new(alloc);
    for segment in segments {
        path.push('/')?;
        path.encode_str::<Data>(segment.as_str())?;
    }
    Ok(path)
}
