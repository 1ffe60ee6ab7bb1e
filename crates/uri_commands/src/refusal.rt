//! Why a command fails, and the line that says so.
ghost use Rattle.std.specs.Prelude.{◌≡◌, ◌||◌, ◌++◌, IsTrue, codes, not, Some};
ghost use Rattle.std.specs.Io.KnownBytes.{Appends};
ghost use Rattle.uri_commands.specs.Prefixes.{AppendsPrefix};
ghost use Rattle.uri_commands.specs.Messages.{error_kind_text, error_text, index_text, message_text, resolve_error_text};
ghost use Rattle.uri_commands.specs.Refusals.{command_error_text, error_line};

use crate::sink::{Sink, put_both};
use fluent_uri::resolve::ResolveError;
use fluent_uri::{ParseError, ParseErrorKind};
use itoa::Buffer;
use std::alloc::AllocError;
use std::fmt::{self, Display};
use std::io;

/// Why a command fails.
#[derive(Clone, Copy)]
pub enum CommandError {
    /// The text is not of the kind.
    Text(ParseError),
    /// The base is not of its kind.
    Base(ParseError),
    /// The reference is not of its kind.
    Reference(ParseError),
    /// The reference has no target against the base.
    Target(ResolveError),
    /// Allocation failed.
    OutOfMemory,
    /// Writing the output failed.
    OutputFailed,
}

/// The message of a command's error: what it is about, what is wrong, and where.
#[derive(Clone, Copy)]
struct Message {
    /// `base: ` or `reference: `, or nothing.
    subject: &'static str,
    /// What is wrong.
    text: &'static str,
    /// At which index of a text, if it is a parse error.
    index: Option<usize>,
}

impl Message {
    /// Returns the message for a parse error of what `subject` says.
    fn of_parse_error(subject: &'static str, error: ParseError) -> Message
        ensures { message_text result ≡ subject.now ++ error_text error }
    {
        Message {
            subject,
            text: error_kind_message(error.kind()),
            index: Some(error.index()),
        }
    }

    /// Returns the message that is only a text.
    fn of_text(text: &'static str) -> Message
        ensures { message_text result ≡ text.now }
    {
        Message {
            subject: "",
            text,
            index: None,
        }
    }
}

impl CommandError {
    /// Writes the line of a command's error: `error: `, its text and a newline. Returns whether it
    /// was written whole. If it was not, the writer failed, and got a prefix of the line.
    pub fn show<E: io::Write>(self, err: &mut Sink<E>) -> bool
        ensures whole { IsTrue result → Appends (E.contents err.old.writer)
            (E.contents err.new.writer) (error_line self) }
        ensures prefix { AppendsPrefix (E.contents err.old.writer)
            (E.contents err.new.writer) (error_line self) }
        ensures failed { err.new.has_failed ≡ (not result || err.old.has_failed) }
    {
        let message = self.message();
        put_both(err, b"error: ", message.subject.as_bytes())
            && put_line_end(err, message.text, message.index)
    }

    /// Returns the message of a command's error.
    fn message(self) -> Message
        ensures { message_text result ≡ command_error_text self }
    {
        match self {
            CommandError::Text(error) => Message::of_parse_error("", error),
            CommandError::Base(error) => Message::of_parse_error("base: ", error),
            CommandError::Reference(error) => Message::of_parse_error("reference: ", error),
            CommandError::Target(error) => Message::of_text(resolve_message(error)),
            CommandError::OutOfMemory => Message::of_text("out of memory"),
            CommandError::OutputFailed => Message::of_text("output failed"),
        }
    }
}

/// Writes the end of an error line: a text, ` at index ` and the index if there is one, and a
/// newline. Returns whether all was written.
fn put_line_end<E: io::Write>(err: &mut Sink<E>, text: &str, index: Option<usize>) -> bool
    ensures whole { IsTrue result → Appends (E.contents err.old.writer)
        (E.contents err.new.writer) ((text.now ++ index_text index) ++ codes "\n") }
    ensures prefix { AppendsPrefix (E.contents err.old.writer)
        (E.contents err.new.writer) ((text.now ++ index_text index) ++ codes "\n") }
    ensures failed { err.new.has_failed ≡ (not result || err.old.has_failed) }
{
    put_indexed(err, text, index) && err.put(b"\n")
}

/// Writes a text, and ` at index ` and the index if there is one. Returns whether all was written.
fn put_indexed<E: io::Write>(err: &mut Sink<E>, text: &str, index: Option<usize>) -> bool
    ensures whole { IsTrue result → Appends (E.contents err.old.writer)
        (E.contents err.new.writer) (text.now ++ index_text index) }
    ensures prefix { AppendsPrefix (E.contents err.old.writer)
        (E.contents err.new.writer) (text.now ++ index_text index) }
    ensures failed { err.new.has_failed ≡ (not result || err.old.has_failed) }
{
    match index {
        Some(index) => err.put(text.as_bytes()) && put_index(err, index),
        None => err.put(text.as_bytes()),
    }
}

/// Writes ` at index ` and the index. Returns whether all was written.
fn put_index<E: io::Write>(err: &mut Sink<E>, index: usize) -> bool
    ensures whole { IsTrue result → Appends (E.contents err.old.writer)
        (E.contents err.new.writer) (index_text (Some index)) }
    ensures prefix { AppendsPrefix (E.contents err.old.writer)
        (E.contents err.new.writer) (index_text (Some index)) }
    ensures failed { err.new.has_failed ≡ (not result || err.old.has_failed) }
{
    let mut digits = Buffer::new();
    put_both(err, b" at index ", digits.format(index).as_bytes())
}

/// Prints the text of the error, without `error: ` before it.
impl Display for CommandError {
    ghost use Rattle.uri_commands.specs.Refusals.{command_error_text};

    ghost output = { λ why. Some (command_error_text why) };

    /// Prints the text of an error of a command, without `error: ` before it.
    fn fmt<W: fmt::Write>(&self, f: &mut fmt::Formatter<W>) -> fmt::Result {
        let Message {
            subject,
            text,
            index,
        } = self.message();
        match index {
            Some(index) => write!(f, "{subject}{text} at index {index}"),
            None => write!(f, "{subject}{text}"),
        }
    }
}

/// Returns what an error line of a command says of a kind of parse error, such as `unexpected
/// character`.
fn error_kind_message(kind: ParseErrorKind) -> &'static str
    ensures { result.now ≡ error_kind_text kind }
{
    match kind {
        ParseErrorKind::InvalidPctEncodedOctet => "invalid percent-encoded octet",
        ParseErrorKind::UnexpectedChar => "unexpected character",
        ParseErrorKind::InvalidIpv6Addr => "invalid IPv6 address",
    }
}

/// Returns what an error line of a command says of an error of resolving.
pub(crate) fn resolve_message(error: ResolveError) -> &'static str
    ensures { result.now ≡ resolve_error_text error }
{
    match error {
        ResolveError::BaseWithFragment => "base should not have fragment",
        ResolveError::InvalidReferenceAgainstOpaqueBase => {
            "when base has a rootless path and no authority, reference should either have scheme, \
            be empty or start with '#'"
        }
        ResolveError::PathUnderflow => "underflow occurred in path resolution",
        ResolveError::OutOfMemory => "out of memory",
    }
}

impl From<ParseError> for CommandError {
    ghost use Rattle.uri_commands.specs.declared.refusal.CommandError.TheVariants.{Text};

    ghost from_gives = { λ error refusal. refusal ≡ Text error };

    /// Returns the error of a command for a parse error.
    fn from(error: ParseError) -> CommandError {
        CommandError::Text(error)
    }
}

impl From<AllocError> for CommandError {
    ghost use Rattle.uri_commands.specs.declared.refusal.CommandError.TheVariants.{OutOfMemory};

    ghost from_gives = { λ _ refusal. refusal ≡ OutOfMemory };

    /// Returns the error of a command for a failed allocation.
    fn from(_: AllocError) -> CommandError {
        CommandError::OutOfMemory
    }
}

impl From<ResolveError> for CommandError {
    ghost use Rattle.uri_commands.specs.declared.refusal.CommandError.TheVariants.{Target};

    ghost from_gives = { λ error refusal. refusal ≡ Target error };

    /// Returns the error of a command for an error of resolving.
    fn from(error: ResolveError) -> CommandError {
        CommandError::Target(error)
    }
}
