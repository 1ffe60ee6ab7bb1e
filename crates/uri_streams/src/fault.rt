//! Why a line is an error.
ghost use Rattle.std.specs.Prelude.{Some};

use fluent_uri::ParseError;
use std::fmt::{self, Display};
use uri_commands::refusal::CommandError;

/// Why a command gets no text of a line.
#[derive(Clone, Copy)]
pub(crate) enum NoText {
    /// The text of the line has more bytes than this.
    TooLong(u32),
    /// The line has no field after so many others.
    NoField(u32),
    /// The bytes that the command would get are UTF-8 up to this index.
    NotUtf8(usize),
}

impl Display for NoText {
    ghost use Rattle.uri_streams.specs.Fields.{no_text_message};

    ghost output = { λ why. Some (no_text_message why) };

    /// Prints the message for a line of which the command gets no text.
    fn fmt<W: fmt::Write>(&self, f: &mut fmt::Formatter<W>) -> fmt::Result {
        match *self {
            NoText::TooLong(most) => write!(f, "line over {most} bytes"),
            NoText::NoField(before) => write!(f, "no field {}", before as u64 + 1),
            NoText::NotUtf8(index) => write!(f, "not UTF-8 at index {index}"),
        }
    }
}

/// Why a line of an input is an error.
#[derive(Clone, Copy)]
pub(crate) enum LineError {
    /// The command gets no text of the line.
    NoText(NoText),
    /// The command rejects the text of the line.
    Refused(CommandError),
    /// The text of the line, a target to relativize, is not of the kind of the base.
    Target(ParseError),
    /// The target by the basic algorithm has no authority, and a path that begins with `//`.
    PathStartsWithDoubleSlash,
}

/// Prints the message of the error of a line, without the `error: ` before it.
impl Display for LineError {
    ghost use Rattle.uri_streams.specs.Returned.{line_error_message};

    ghost output = { λ fault. Some (line_error_message fault) };

    /// Prints the message of the error of a line, without the `error: ` before it.
    fn fmt<W: fmt::Write>(&self, f: &mut fmt::Formatter<W>) -> fmt::Result {
        match *self {
            LineError::NoText(why) => write!(f, "{why}"),
            LineError::Refused(refusal) => write!(f, "{refusal}"),
            LineError::Target(error) => write!(f, "target: {}", CommandError::Text(error)),
            LineError::PathStartsWithDoubleSlash => {
                write!(
                    f,
                    "target has no authority, and its path would start with '//'"
                )
            }
        }
    }
}
