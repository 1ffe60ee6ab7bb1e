//! What a test prints of its allocations. In a run at most one fails.

use fluent_uri::build::BuildError;
use std::alloc::{AllocError, Global};
use std::process::Abort;

/// An error that may say that an allocation failed.
pub trait MayBeOutOfMemory {
    /// Returns whether the error of a call in a test of denied memory is `OutOfMemory`.
    fn is_out_of_memory(&self) -> bool;
}

impl MayBeOutOfMemory for AllocError {
    /// Returns true, since a call in a test of denied memory returns this error for no other cause.
    fn is_out_of_memory(&self) -> bool {
        true
    }
}

impl MayBeOutOfMemory for BuildError {
    /// Returns whether the error of a builder in a test of denied memory is `OutOfMemory`.
    fn is_out_of_memory(&self) -> bool {
        matches!(*self, BuildError::OutOfMemory)
    }
}

/// Prints, in a test of denied memory, which call was denied it.
pub fn report<R: Print>(rt: &R, call: &str) {
    let _ = println!(rt; "refused: {call}");
}

/// Ends a test of denied memory by one more request. If that is the one that is denied, none of the
/// calls was denied memory, and the test prints so.
pub fn end<R: Print>(rt: &R, alloc: Global) {
    if String::from_str(alloc, "after the calls").is_err() {
        let _ = println!(rt; "refused none");
    }
}

/// Returns whether a call in a test of denied memory succeeded. If not, checks that its error is
/// `OutOfMemory`, and prints so.
pub fn succeeds<R: Abort + Print, T: Drop, E: MayBeOutOfMemory>(
    rt: &R,
    call: &str,
    called: &Result<T, E>,
) -> bool {
    match called {
        Ok(_) => true,
        Err(error) => {
            assert_out_of_memory(rt, call, error);
            false
        }
    }
}

/// Checks that the error of a call in a test of denied memory is `OutOfMemory`, and prints so.
pub fn assert_out_of_memory<R: Abort + Print, E: MayBeOutOfMemory>(rt: &R, call: &str, error: &E) {
    assert!(rt; error.is_out_of_memory(), "{call} returns another error");
    report(rt, call);
}

/// The value of a call, or, if an allocation fails, the value of a second call. It is a macro,
/// since a closure in place of the call would be four functions to prove.
macro_rules! tried {
    ($rt:expr; $call:expr, $make:expr) => {
        match $make {
            Ok(made) => made,
            Err(error) => {
                $crate::requests::assert_out_of_memory($rt, $call, &error);
                $make.expect($rt, $call)
            }
        }
    };
}

pub(crate) use tried;
