//! Why a host has no name in ASCII.
ghost use Rattle.std.specs.Prelude.{◌≡◌};

use idna::Errors;
use std::alloc::AllocError;
use thiserror::Error;

/// Why a host has no name in ASCII.
///
/// # Examples
///
/// The host `%FF` is rejected as `NameNotUtf8`, and `é..example` as `InvalidName`.
///
/// ```
/// AsciiHostError::NameNotUtf8 => Error::NameNotUtf8,
/// AsciiHostError::InvalidName => Error::InvalidName,
/// AsciiHostError::OutOfMemory => Error::OutOfMemory,
/// ```
#[derive(Clone, Copy, Debug, PartialEq, Eq, Error)]
pub enum AsciiHostError {
    /// The host is a name that does not decode to UTF-8 (RFC 3986, section 3.2.2).
    #[error("registered name does not decode to valid UTF-8")]
    NameNotUtf8,
    /// The host is a name past ASCII that is no domain name (UTS 46, section 4).
    #[error("invalid domain name")]
    InvalidName,
    /// Allocation failed.
    #[error("out of memory")]
    OutOfMemory,
}

impl From<AllocError> for AsciiHostError {
    ghost use Rattle.uri_idna.specs.declared.error.AsciiHostError.TheVariants.{OutOfMemory};

    ghost from_gives = { λ _ error. error ≡ OutOfMemory };

    /// Returns the error `OutOfMemory` for a failed allocation.
    fn from(_: AllocError) -> AsciiHostError {
        AsciiHostError::OutOfMemory
    }
}
