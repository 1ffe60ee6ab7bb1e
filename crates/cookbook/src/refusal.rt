//! The errors of a line.
ghost use Rattle.std.specs.Prelude.{◌≡◌};
ghost use Rattle.cookbook.specs.declared.refusal.Failure.TheVariants.{OutOfMemory, OutputFailed};
ghost use Rattle.cookbook.specs.declared.refusal.Failure.TheVariants.{Target, Text};

use fluent_uri::ParseError;
use fluent_uri::resolve::ResolveError;
use std::alloc::{AllocError, AllocFailed};
use std::io;
use thiserror::Error;

/// The error of a line.
#[derive(Clone, Copy, Debug, PartialEq, Eq, Error)]
pub enum Failure {
    /// The text is not of the kind that was asked for.
    #[error("{0}")]
    Text(ParseError),
    /// The reference has no target against the base.
    #[error("{0}")]
    Target(ResolveError),
    /// The text is not a query (RFC 3986, section 3.4).
    #[error("no query")]
    Query,
    /// Allocation failed.
    #[error("out of memory")]
    OutOfMemory,
    /// The writer did not take the whole output.
    #[error("output failed")]
    OutputFailed,
}

impl From<ParseError> for Failure {
    ghost from_gives = { λ error refusal. refusal ≡ Text error };

    /// Returns the failure of a caller's program for a parse error.
    fn from(error: ParseError) -> Failure {
        Failure::Text(error)
    }
}

impl From<ResolveError> for Failure {
    ghost from_gives = { λ error refusal. refusal ≡ Target error };

    /// Returns the failure of a caller's program for an error of resolving.
    fn from(error: ResolveError) -> Failure {
        Failure::Target(error)
    }
}

impl From<AllocError> for Failure {
    ghost from_gives = { λ _ refusal. refusal ≡ OutOfMemory };

    /// Returns the failure of a caller's program for a failed allocation.
    fn from(_: AllocError) -> Failure {
        Failure::OutOfMemory
    }
}

impl<T: Drop> From<AllocFailed<T>> for Failure {
    ghost from_gives = { λ _ refusal. refusal ≡ OutOfMemory };

    /// Returns the failure of a caller's program for a failed allocation that gave a value back.
    fn from(_: AllocFailed<T>) -> Failure {
        Failure::OutOfMemory
    }
}

impl From<io::Error> for Failure {
    ghost from_gives = { λ _ refusal. refusal ≡ OutputFailed };

    /// Returns the failure of a caller's program for an error of its writer.
    fn from(_: io::Error) -> Failure {
        Failure::OutputFailed
    }
}
