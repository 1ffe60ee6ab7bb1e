//! Why a run ended before the end of its input.
ghost use Rattle.std.specs.Prelude.{◌≡◌};

use std::alloc::AllocError;
use std::io;

/// Why a run ended before the end of its input.
#[derive(Drop)]
pub enum Failure {
    /// The reader failed, or it gave more than `u64::MAX` lines or parts of a line.
    Input(io::Error),
    /// The writer failed.
    Output(io::Error),
    /// Allocation failed.
    OutOfMemory,
}

impl From<AllocError> for Failure {
    ghost use Rattle.uri_streams.specs.declared.failure.Failure.TheVariants.{OutOfMemory};

    ghost from_gives = { λ _ failure. failure ≡ OutOfMemory };

    /// Returns the failure of a run for a failed allocation.
    fn from(_: AllocError) -> Failure {
        Failure::OutOfMemory
    }
}

/// What failed in a run. Its error is kept by the reader or the writer until the run ends.
#[derive(Clone, Copy)]
pub(crate) enum Cause {
    /// The reader failed.
    Input,
    /// The writer failed.
    Output,
    /// Allocation failed.
    OutOfMemory,
}

impl From<AllocError> for Cause {
    ghost use Rattle.uri_streams.specs.declared.failure.Cause.TheVariants.{OutOfMemory};

    ghost from_gives = { λ _ cause. cause ≡ OutOfMemory };

    /// Returns the cause of a failed allocation, `OutOfMemory`.
    fn from(_: AllocError) -> Cause {
        Cause::OutOfMemory
    }
}
