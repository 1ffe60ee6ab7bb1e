//! A command with its options.

use crate::command::Command;

/// What happens to a line that is an error, as `--errors` of `urilines` says.
#[derive(Clone, Copy)]
pub enum OnError {
    /// `line`: `error: ` and the message take the place of the line.
    Line,
    /// `drop`: the line has no output.
    Drop,
    /// `stderr`: the line has no output, and the message goes to the error output.
    Stderr,
    /// `stop`: the message goes to the error output, and the run ends.
    Stop,
}

/// A field of a line, which a command of `urilines` gets in place of the line's text.
#[derive(Clone, Copy)]
pub struct Field {
    /// How many fields of the line are before this one.
    pub before: u32,
    /// The byte between two fields of a line.
    pub delimiter: u8,
}

/// A command of `urilines` with its options.
#[derive(Clone, Copy)]
pub struct Job<'a> {
    /// What is done with the lines.
    pub command: Command<'a>,
    /// The field of a line that the command gets, and not the whole text. The other fields are
    /// kept.
    pub field: Option<Field>,
    /// Whether NUL ends a line in place of a newline.
    pub is_null: bool,
    /// How many bytes the text of a line may have.
    pub max_line: u32,
    /// Whether a line's text is mended as the link of a page before the command gets it.
    pub is_mended: bool,
    /// What happens to a line that is an error.
    pub errors: OnError,
}
