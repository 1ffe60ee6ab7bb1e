//! The text of a line, mended as the link of a page.
ghost use Rattle.std.specs.Prelude.{◌≡◌, ◌≢◌, IfErr, IfOk, string_bytes};
ghost use Rattle.uri_commands.specs.Kinds.{kind_named};
ghost use Rattle.uri_commands.specs.MendedLinks.{mended_link};
ghost use Rattle.uri_mend.specs.Trimming.{trimmed_link};
ghost use Rattle.uri_streams.specs.Results as results;
ghost use Rattle.uri_streams.specs.Results.{mend_result};
ghost use Rattle.uri_streams.specs.Returned.{result_in};
ghost use Rattle.uri_streams.specs.Tasks as tasks;

use crate::command::{Base, Command, LineCommand};
use crate::fault::LineError;
use crate::line_result::{LineResult, refused};
use std::alloc::{AllocError, Global};
use uri_commands::kinds::KindName;
use uri_commands::mending::mended;
use uri_commands::refusal::CommandError;
use uri_mend::trim_link;

/// Returns the result of `urilines mend` for a text: what it is mended to, or its parse error if it
/// cannot be mended.
///
/// # Errors
///
/// Only if allocation fails.
pub(crate) fn mend(
    alloc: Global,
    kind: KindName,
    text: &str,
) -> Result<LineResult<'static>, AllocError>
    ensures { IfOk result (λ line. result_in line ≡ mend_result (kind_named kind) text.now) }
{
    match mended(alloc, kind, text) {
        Ok(link) => Ok(LineResult::Text(link)),
        Err(error) => mend_error_result(error),
    }
}

/// Returns the result of `urilines mend` for a link that is not mended: the error of mending,
/// unless that is a failed allocation.
///
/// # Errors
///
/// Exactly if the error is that allocation failed.
fn mend_error_result(error: CommandError) -> Result<LineResult<'static>, AllocError>
    ensures output { IfOk result (λ line_result.
        line_result ≡ LineResult.Error (LineError.Refused error)) }
    ensures some { IfOk result (λ _. error ≢ CommandError.OutOfMemory) }
    ensures memory { IfErr result (λ _. error ≡ CommandError.OutOfMemory) }
{
    match error {
        CommandError::OutOfMemory => Err(AllocError),
        error => Ok(refused(error)),
    }
}

/// Returns what the command of a job with `--mend` gets of a text: what it is mended to, or the
/// link without its white space if it cannot be mended.
///
/// # Errors
///
/// Only if allocation fails.
pub(crate) fn mended_or_trimmed(
    alloc: Global,
    kind: KindName,
    text: &str,
) -> Result<String, AllocError>
    ensures { IfOk result (λ link. string_bytes link ≡ mended_link (kind_named kind) text.now) }
{
    match mended(alloc, kind, text) {
        Ok(link) => Ok(link),
        Err(error) => trimmed(alloc, error, text),
    }
}

/// Returns the link of a page without its white space, for the error of mending it.
///
/// # Errors
///
/// If that error is that allocation failed, or it fails again.
fn trimmed(alloc: Global, error: CommandError, text: &str) -> Result<String, AllocError>
    ensures text { IfOk result (λ link. string_bytes link ≡ trimmed_link text.now) }
    ensures some { IfOk result (λ _. error ≢ CommandError.OutOfMemory) }
{
    match error {
        CommandError::OutOfMemory => Err(AllocError),
        _ => trim_link(alloc, text)?.into_owned(alloc),
    }
}

/// Returns the kind of the texts that a command gets of lines.
pub(crate) fn text_kind(command: &Command<'_>) -> KindName
    ensures { kind_named result ≡ tasks.text_kind command.now }
{
    match command {
        Command::Each(command) => line_text_kind(command),
        Command::Unique(kind, _, _) => *kind,
        Command::Links(_, _) => KindName::UriRef,
    }
}

/// Returns the kind of the texts that a command gets of lines that remembers nothing of them.
fn line_text_kind(command: &LineCommand<'_>) -> KindName
    ensures { kind_named result ≡ results.text_kind command.now }
{
    match command {
        LineCommand::Normalize(kind, _) => *kind,
        LineCommand::Resolve(Base::Uri(_), _) => KindName::UriRef,
        LineCommand::Resolve(Base::Iri(_), _) => KindName::IriRef,
        LineCommand::Relativize(Base::Uri(_), _) => KindName::Uri,
        LineCommand::Relativize(Base::Iri(_), _) => KindName::Iri,
        LineCommand::Check(kind, _) => *kind,
        LineCommand::Mend(kind) => *kind,
        LineCommand::Parse(kind) => *kind,
        LineCommand::Query(kind) => *kind,
    }
}
