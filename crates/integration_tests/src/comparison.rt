//! How tests compare. Each function returns a `Result`, so that `expect` in a test ends it and
//! shows what differs, with the place in the test.
ghost use Rattle.std.specs.Prelude.{◌≡◌, ◌↔◌, IsOk, true};

use std::alloc::{AllocError, Global};
use std::fmt::Display;

/// Two values that differ, and were expected to be equal.
#[derive(Debug, Drop)]
pub struct Differ<T> {
    /// The actual value.
    pub got: T,
    /// The expected value.
    pub wanted: T,
}

/// Compares two values for a test, which ends by `expect` of the result.
///
/// # Errors
///
/// Both of them, if they are not equal.
pub fn equal<T: PartialEq + Drop>(got: T, wanted: T) -> Result<(), Differ<T>>
    ensures { IsOk result ↔ (T.eq got wanted ≡ true) }
{
    if got == wanted {
        Ok(())
    } else {
        Err(Differ { got, wanted })
    }
}

/// Why a value does not print as expected.
#[derive(Debug, Drop)]
pub enum Misprint {
    /// It prints as this text.
    As(String),
    /// Allocation failed.
    OutOfMemory,
}

impl From<AllocError> for Misprint {
    ghost use Rattle.integration_tests.specs.declared.comparison.Misprint.TheVariants.{OutOfMemory};

    ghost from_gives = { λ _ misprint. misprint ≡ OutOfMemory };

    /// Returns `OutOfMemory` for an allocation that fails where a test prints a value.
    fn from(_: AllocError) -> Misprint {
        Misprint::OutOfMemory
    }
}

/// Prints a value for a test, and compares what that gives with a text.
///
/// # Errors
///
/// `As` with what it prints, if that is another text; `OutOfMemory` if allocation fails.
pub fn prints<D: Display>(alloc: Global, value: &D, wanted: &str) -> Result<(), Misprint> {
    let printed = format!(in alloc; "{value}")?;
    if printed.as_str() == wanted {
        Ok(())
    } else {
        Err(Misprint::As(printed))
    }
}
