//! The result of a line of an input.
ghost use Rattle.std.specs.Prelude.{◌≡◌, IfOk};
ghost use Rattle.uri_streams.specs.Returned.{result_in};

use crate::fault::LineError;
use std::alloc::{AllocError, Global};
use uri_commands::refusal::CommandError;

/// The result of a line of an input: a text, no line, or an error.
#[derive(Drop)]
pub(crate) enum LineResult<'a> {
    /// This text replaces that of the line.
    Text(String),
    /// This borrowed text replaces that of the line.
    Borrowed(&'a str),
    /// The line passes as it is.
    Unchanged,
    /// The line has no output.
    NoLine,
    /// The line is an error.
    Error(LineError),
}

impl<'a> LineResult<'a> {
    /// Returns the same result with a text of its own.
    ///
    /// # Errors
    ///
    /// Only if allocation fails.
    pub(crate) fn into_owned(self, alloc: Global) -> Result<LineResult<'static>, AllocError>
        ensures { IfOk result (λ line_result. result_in line_result ≡ result_in self.entry) }
    {
        match self {
            LineResult::Text(text) => Ok(LineResult::Text(text)),
            LineResult::Borrowed(text) => Ok(LineResult::Text(String::from_str(alloc, text)?)),
            LineResult::Unchanged => Ok(LineResult::Unchanged),
            LineResult::NoLine => Ok(LineResult::NoLine),
            LineResult::Error(fault) => Ok(LineResult::Error(fault)),
        }
    }
}

/// Returns the result for a text that the command rejects: the error of a command.
#[cold]
#[inline(never)]
pub(crate) fn refused(error: CommandError) -> LineResult<'static>
    ensures { result ≡ LineResult.Error (LineError.Refused error) }
{
    LineResult::Error(LineError::Refused(error))
}
