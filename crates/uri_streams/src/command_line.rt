//! The job that the words of a command line make.
ghost use Rattle.std.specs.Prelude.{◌≡◌, ◌≢◌, MatchOption, MatchResult, None, Some};
ghost use Rattle.fluent_uri.specs.Prelude.{reference_text};
ghost use Rattle.uri_streams.specs.CommandLines.{IsBaseOf, IsCommandOf, IsErrorOfBase, IsErrorOfField, IsDelimiterOf, IsErrorOfDelimiter, is_in_no_text, is_only_kept, keeps_shape, IsErrorOfLine, IsFieldOf, IsJobOf, IsRejectedBase, IsWordOfBase, mode_of, rules_asked, word_of_command, word_of_mode};

use crate::command::{Base, Command, KindName, LineCommand};
use crate::job::{Field, Job, OnError};
use fluent_uri::Reference;
use fluent_uri::kind::BaseKind;
use fluent_uri::normalize::RuleSet;
use std::fmt::{self, Display};
use std::hash::RandomState;
pub use uri_commands::kinds::kind_named;
use uri_commands::refusal::CommandError;
use uri_commands::table::{
    CHECK, LINKS, MEND, NORMALIZE, PARSE, QUERY, RELATIVIZE, RESOLVE, UNIQUE,
};
use uri_pct::table;

/// How many bytes the text of a line may have, if `--max-line` doesn't say it: 1 MiB.
const MAX_LINE: u32 = 1024 * 1024;

/// The name of a command on the command line of `urilines`.
#[derive(Clone, Copy)]
pub enum CommandName {
    /// `normalize`
    Normalize,
    /// `resolve`
    Resolve,
    /// `relativize`
    Relativize,
    /// `check`
    Check,
    /// `mend`
    Mend,
    /// `parse`
    Parse,
    /// `query`
    Query,
    /// `unique`
    Unique,
    /// `links`
    Links,
}

/// What a command line of `urilines` says.
#[derive(Clone, Copy)]
pub struct CommandLine<'a> {
    /// The command.
    pub command: CommandName,
    /// `KIND`: the kind of each line's text, or of the base.
    pub kind: Option<KindName>,
    /// `BASE`: the text of the base.
    pub base: Option<&'a str>,
    /// Whether `--invert` is given.
    pub is_inverted: bool,
    /// Whether `--mend` is given.
    pub is_mended: bool,
    /// Whether `--prefer-relative` is given.
    pub prefers_relative: bool,
    /// Whether `--scheme-rules` is given.
    pub scheme_rules: bool,
    /// Whether `--basic` is given.
    pub is_basic: bool,
    /// The number of a field, from 1, if `--field` gives it.
    pub field: Option<u32>,
    /// What is between two fields, if `--delimiter` gives it.
    pub delimiter: Option<&'a str>,
    /// Whether `--null` is given.
    pub is_null: bool,
    /// What happens to a line that is an error, if `--errors` gives it.
    pub errors: Option<OnError>,
    /// How many bytes the text of a line may have, if `--max-line` gives it.
    pub max_line: Option<u32>,
}

/// Why a command line of `urilines` has no job.
#[derive(Clone, Copy)]
pub enum CommandLineError {
    /// The command lacks its kind or its base, or the kind is not that of a base.
    Words,
    /// The base is not of its kind.
    Base(CommandError),
    /// The option `--field` is 0. The first field has the number 1.
    Field,
    /// The option `--delimiter` is not an ASCII character, or one that a result or a message of the
    /// command may have.
    Delimiter,
}

impl Display for CommandLineError {
    ghost use Rattle.uri_streams.specs.CommandLines.{command_line_message};

    ghost output = { λ error. Some (command_line_message error) };

    /// Prints the message of the error of a command line, without the `error: ` before it.
    fn fmt<W: fmt::Write>(&self, f: &mut fmt::Formatter<W>) -> fmt::Result {
        match *self {
            CommandLineError::Words => write!(f, "no command"),
            CommandLineError::Base(refusal) => write!(f, "{refusal}"),
            CommandLineError::Field => write!(f, "field: the first is 1"),
            CommandLineError::Delimiter => write!(f, "delimiter: not one that the results lack"),
        }
    }
}

/// Returns the command of this name, if there is one.
pub fn command_named(word: &str) -> Option<CommandName>
    ensures { MatchOption result ((name : _) → word.now ≢ word_of_command name)
        (λ name. word.now ≡ word_of_command name) }
{
    match word {
        _ if word == NORMALIZE.name => Some(CommandName::Normalize),
        _ if word == RESOLVE.name => Some(CommandName::Resolve),
        _ if word == RELATIVIZE.name => Some(CommandName::Relativize),
        _ if word == CHECK.name => Some(CommandName::Check),
        _ if word == MEND.name => Some(CommandName::Mend),
        _ if word == PARSE.name => Some(CommandName::Parse),
        _ if word == QUERY.name => Some(CommandName::Query),
        _ if word == UNIQUE.name => Some(CommandName::Unique),
        _ if word == LINKS.name => Some(CommandName::Links),
        _ => None,
    }
}

/// Returns what happens to a line that is an error, as a word of `--errors` says it.
pub fn on_error_named(word: &str) -> Option<OnError>
    ensures { MatchOption result ((mode : _) → word.now ≢ word_of_mode mode)
        (λ mode. word.now ≡ word_of_mode mode) }
{
    match word {
        "line" => Some(OnError::Line),
        "drop" => Some(OnError::Drop),
        "stderr" => Some(OnError::Stderr),
        "stop" => Some(OnError::Stop),
        _ => None,
    }
}

/// Returns the job that a command line asks for. `hasher` is for the texts that `unique` keeps.
///
/// # Errors
///
/// - `Words` if the command lacks its kind or its base, or the kind is not that of a base.
/// - Otherwise `Base` if the base is not of its kind.
/// - Otherwise `Delimiter` if the delimiter is not one ASCII character that no result and no
///   message of the command has.
/// - Otherwise `Field` if the field is 0.
pub fn job<'a>(line: &CommandLine<'a>, hasher: RandomState) -> Result<Job<'a>, CommandLineError>
    ensures { MatchResult result (IsJobOf line.now hasher) (IsErrorOfLine line.now) }
{
    let command = command(line, hasher)?;
    let field = field(line)?;
    Ok(Job {
        command,
        field,
        is_null: line.is_null,
        is_mended: line.is_mended,
        max_line: line.max_line.unwrap_or(MAX_LINE),
        errors: on_error(line),
    })
}

/// Returns what happens to a line that is an error. If the command line does not say it, `check`
/// and `unique` drop such a line, and the others write the error in its place.
fn on_error(line: &CommandLine<'_>) -> OnError
    ensures { result ≡ mode_of line.now }
{
    match (line.errors, line.command) {
        (Some(errors), _) => errors,
        (None, CommandName::Check) => OnError::Drop,
        (None, CommandName::Unique) => OnError::Drop,
        (None, _) => OnError::Line,
    }
}

/// Returns the command that a command line asks for.
fn command<'a>(line: &CommandLine<'a>, hasher: RandomState) -> Result<Command<'a>, CommandLineError>
    ensures { MatchResult result (IsCommandOf line.now hasher) (IsErrorOfLine line.now) }
{
    Ok(match line.command {
        CommandName::Normalize => {
            Command::Each(LineCommand::Normalize(kind(line)?, rules_asked(line)))
        }
        CommandName::Resolve => Command::Each(LineCommand::Resolve(base(line)?, line.is_basic)),
        CommandName::Relativize => {
            Command::Each(LineCommand::Relativize(base(line)?, line.prefers_relative))
        }
        CommandName::Check => Command::Each(LineCommand::Check(kind(line)?, line.is_inverted)),
        CommandName::Mend => Command::Each(LineCommand::Mend(kind(line)?)),
        CommandName::Parse => Command::Each(LineCommand::Parse(kind(line)?)),
        CommandName::Query => Command::Each(LineCommand::Query(kind(line)?)),
        CommandName::Unique => Command::Unique(kind(line)?, rules_asked(line), hasher),
        CommandName::Links => Command::Links(base_of_kind(line)?, rules_asked(line)),
    })
}

/// Returns the rules of schemes that a command line asks for.
fn rules_asked(line: &CommandLine<'_>) -> RuleSet
    ensures { result ≡ rules_asked line.now }
{
    if line.scheme_rules {
        RuleSet::StandardRules
    } else {
        RuleSet::DefaultPorts
    }
}

/// Returns the kind of each line's text.
fn kind(line: &CommandLine<'_>) -> Result<KindName, CommandLineError>
    ensures { MatchResult result (λ kind. line.now.kind ≡ Some kind)
        (λ error. (error ≡ CommandLineError.Words) × (line.now.kind ≡ None)) }
{
    match line.kind {
        Some(kind) => Ok(kind),
        None => Err(CommandLineError::Words),
    }
}

/// Returns the base without its fragment, parsed as the kind that is given for it.
fn base<'a>(line: &CommandLine<'a>) -> Result<Base<'a>, CommandLineError>
    ensures { MatchResult result (IsBaseOf line.now) (IsErrorOfBase line.now) }
{
    match line.kind {
        Some(KindName::Uri) => Ok(Base::Uri(base_of_kind(line)?)),
        Some(KindName::Iri) => Ok(Base::Iri(base_of_kind(line)?)),
        _ => Err(CommandLineError::Words),
    }
}

/// Returns the base, parsed as one of the kind, without its fragment (RFC 3986, section 5.1).
fn base_of_kind<'a, K: BaseKind>(
    line: &CommandLine<'a>,
) -> Result<Reference<K, &'a str>, CommandLineError>
    ensures { MatchResult result (λ base. IsWordOfBase line.now.base (reference_text base))
        (IsRejectedBase line.now K.kind) }
{
    match line.base {
        Some(text) => match Reference::<K, &str>::parse(text) {
            Ok(base) => Ok(base.strip_fragment()),
            Err(error) => Err(CommandLineError::Base(CommandError::Base(error))),
        },
        None => Err(CommandLineError::Words),
    }
}

/// Returns what is between two fields: a tab, unless the command line says another byte.
fn delimiter(line: &CommandLine<'_>) -> Result<u8, CommandLineError>
    ensures { MatchResult result (IsDelimiterOf line.now) (IsErrorOfDelimiter line.now) }
{
    match line.delimiter.unwrap_or("\t").as_bytes() {
        &[byte] => {
            if keeps_shape(line.command, byte) {
                Ok(byte)
            } else {
                Err(CommandLineError::Delimiter)
            }
        }
        _ => Err(CommandLineError::Delimiter),
    }
}

/// Returns whether no result and no message of a command has this byte, unless the field has it. So
/// a line keeps its fields if the byte is between them.
#[tactic(auto, unfolding(crate::specs::CommandLines::keeps_shape))]
fn keeps_shape(command: CommandName, byte: u8) -> bool
    ensures { result ≡ keeps_shape command byte }
{
    match command {
        // A decoded value has any character but those that JSON escapes.
        CommandName::Parse => byte < b' ',
        CommandName::Query => byte < b' ',
        // The target has characters of the base.
        CommandName::Resolve => is_in_no_text(byte),
        CommandName::Links => is_in_no_text(byte),
        _ => is_in_no_text(byte) || is_only_kept(byte),
    }
}

/// Returns whether no text of a kind has this byte, and no message. Each ASCII character of a text
/// is reserved, `%`, or one that a query may have.
#[tactic(auto, using(uri_pct::proofs::TableSets::Constants::constant_tables))]
fn is_in_no_text(byte: u8) -> bool
    ensures { result ≡ is_in_no_text byte }
{
    let ch = char::from(byte);
    let is_in_text = table::RESERVED.allows(ch) || table::QUERY.allows(ch) || byte == b'%';
    byte.is_ascii() && !is_in_text && byte != b' '
}

/// Returns whether a normal form, a relative reference and what a link is mended to have this byte
/// only if the text has it, and no message has it.
#[tactic(auto, using(uri_pct::proofs::TableSets::Constants::constant_tables))]
fn is_only_kept(byte: u8) -> bool
    ensures { result ≡ is_only_kept byte }
{
    let ch = char::from(byte);
    let is_other = table::UNRESERVED.allows(ch) || byte == b'/' || byte == b':' || byte == b'\'';
    table::QUERY.allows(ch) && !is_other
}

/// Returns the field that the command gets, if the command line has one.
fn field(line: &CommandLine<'_>) -> Result<Option<Field>, CommandLineError>
    ensures { MatchResult result (IsFieldOf line.now) (IsErrorOfField line.now) }
{
    let delimiter = delimiter(line)?;
    match line.field {
        Some(0) => Err(CommandLineError::Field),
        Some(number) => Ok(Some(Field {
            before: number - 1,
            delimiter,
        })),
        None => Ok(None),
    }
}
