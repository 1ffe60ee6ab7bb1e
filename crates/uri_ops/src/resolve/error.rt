//! Why a reference was not resolved.
ghost use Rattle.std.specs.Prelude.{◌≡◌};

use std::alloc::AllocError;
use thiserror::Error;

/// Why a reference was not resolved against a base.
///
/// `//g` against `foo:bar` is rejected as `InvalidReferenceAgainstOpaqueBase`.
#[derive(Clone, Copy, Debug, PartialEq, Eq, Error)]
pub enum ResolveError {
    /// The base has a fragment (RFC 3986, section 5.1).
    #[error("base should not have fragment")]
    BaseWithFragment,
    /// The base has no authority and its path doesn't begin with `/`, and the reference has no
    /// scheme, is not empty and doesn't begin with `#`.
    #[error("when base has a rootless path and no authority, reference should either have scheme, be empty or start with '#'")]
    InvalidReferenceAgainstOpaqueBase,
    /// A double dot had no segment left to remove (RFC 3986, section 5.2.4), and this is not
    /// allowed.
    #[error("underflow occurred in path resolution")]
    PathUnderflow,
    /// Allocation failed.
    #[error("out of memory")]
    OutOfMemory,
}

impl From<AllocError> for ResolveError {
    ghost use Rattle.uri_ops.specs.declared.resolve.error.ResolveError.TheVariants.{OutOfMemory};

    ghost from_gives = { λ _ error. error ≡ OutOfMemory };

    /// Returns the error `OutOfMemory` of resolving for a failed allocation.
    fn from(_: AllocError) -> ResolveError {
        ResolveError::OutOfMemory
    }
}
