//! Why a reference has no target by the basic algorithm.
ghost use Rattle.std.specs.Prelude.{◌≡◌};

use std::alloc::AllocError;
use thiserror::Error;

/// Why a reference was not resolved by the basic algorithm.
///
/// `.//b` against `foo:/a` is rejected as `PathStartsWithDoubleSlash`.
#[derive(Clone, Copy, Debug, PartialEq, Eq, Error)]
pub enum BasicResolveError {
    /// The target has no authority, and a path that begins with `//`. No text has these components,
    /// since the path would be parsed as an authority (RFC 3986, section 3.3).
    #[error("target has no authority, and its path would start with '//'")]
    PathStartsWithDoubleSlash,
    /// Allocation failed.
    #[error("out of memory")]
    OutOfMemory,
}

impl From<AllocError> for BasicResolveError {
    ghost use Rattle.uri_basic.specs.declared.error.BasicResolveError.TheVariants.{OutOfMemory};

    ghost from_gives = { λ _ error. error ≡ OutOfMemory };

    /// Returns the error `OutOfMemory` of the basic algorithm for a failed allocation.
    fn from(_: AllocError) -> BasicResolveError {
        BasicResolveError::OutOfMemory
    }
}
