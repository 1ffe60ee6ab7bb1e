//! The command line.
ghost use Rattle.std.specs.Prelude.{◌≡◌, IfOk, None, Some, codes, is_some, option_map, true};
ghost use Rattle.clap.specs.Matches.{first_value, found_of, matched_of};
ghost use Rattle.urilines.specs.Words.{IsFlag, IsKindNamed, IsModeNamed};

use crate::table::{
    BASIC, DELIMITER, ERRORS, FIELD, INVERT, MAX_LINE, MENDED, NULL, OPTIONS, OptionRow,
    PREFER_RELATIVE, PROGRESS, SCHEME_RULES, Value,
};
use clap::error::ErrorKind;
use clap::{Arg, ArgAction, ArgMatches, Command as Words, Error, value_parser};
use std::alloc::{AllocError, Global};
use std::hash::RandomState;
use uri_commands::table::{BASES, COMMANDS, CommandRow, KINDS};
use uri_streams::command::KindName;
use uri_streams::command_line::{
    self, CommandLine, CommandLineError, CommandName, command_named, kind_named, on_error_named,
};
use uri_streams::job::{Job, OnError};

/// Returns the parser of the command line of `urilines`.
fn command<'a>(alloc: Global) -> Result<Words<'a>, AllocError> {
    let mut words = Words::new(alloc, "urilines")
        .version("0.1.0")
        .about("Reads URIs, IRIs or references, one a line, and writes a line for each")
        .subcommand_required(true);
    for row in OPTIONS.as_slice() {
        if row.commands.is_empty() {
            words = words.arg(option(alloc, row).global(true))?;
        }
    }
    for row in COMMANDS.as_slice() {
        words = words.subcommand(subcommand(alloc, row)?)?;
    }
    Ok(words)
}

/// Returns the parser of what is after the name of a command of `urilines`.
fn subcommand<'a>(alloc: Global, row: &CommandRow) -> Result<Words<'a>, AllocError> {
    let mut words = Words::new(alloc, row.name).about(row.help);
    if row.has_kind {
        words = words.arg(kind(alloc, row.has_base))?;
    }
    if row.has_base {
        words = words.arg(base(alloc))?;
    }
    for option_row in OPTIONS.as_slice() {
        if option_row.commands.contains(&row.name) {
            words = words.arg(option(alloc, option_row))?;
        }
    }
    Ok(words)
}

/// Returns the parser of an option of `urilines`.
fn option<'a>(alloc: Global, row: &OptionRow) -> Arg<'a> {
    let named = Arg::new(alloc, row.name).long(row.name).help(row.help);
    let named = match row.short {
        Some(short) => named.short(short),
        None => named,
    };
    match row.value {
        Value::Nothing => named.action(ArgAction::SetTrue),
        Value::Text(name) => named.value_name(name),
        Value::Number(name) => named.value_name(name).value_parser(value_parser!(u32)),
        Value::Word(name, words) => named.value_name(name).value_parser(words),
    }
}

/// Returns the parser of the kind of each line, or of that of a base, on the command line of
/// `urilines`.
fn kind<'a>(alloc: Global, is_of_base: bool) -> Arg<'a> {
    let kind = Arg::new(alloc, "kind").value_name("KIND").required(true);
    if is_of_base {
        kind.value_parser(BASES.as_slice())
            .help("The kind of the base")
    } else {
        kind.value_parser(KINDS.as_slice()).help("What a line is")
    }
}

/// Returns the parser of the text of a base on the command line of `urilines`.
fn base<'a>(alloc: Global) -> Arg<'a> {
    Arg::new(alloc, "base")
        .value_name("BASE")
        .required(true)
        .help("The base, whose fragment plays no part")
}

/// Parses the words of a command line of `urilines`.
///
/// # Errors
///
/// Those of `clap`, and one for `--delimiter` without `--field`. These may be on both sides of the
/// command, and `Arg::requires_arg` looks at one.
pub fn parsed<'a>(alloc: Global, words: &'a [String]) -> Result<ArgMatches<'a>, Error>
    ensures { IfOk result (λ matches.
        is_some (matched_of (found_of matches) (codes "delimiter")) ≡ true
        → is_some (matched_of (found_of matches) (codes "field")) ≡ true) }
{
    let mut command = command(alloc)?;
    let matches = command.try_get_matches_from_mut(words)?;
    if matches.contains_id(DELIMITER.name) && !matches.contains_id(FIELD.name) {
        let message = "the following required arguments were not provided:\n  --field <N>";
        return Err(command.error(ErrorKind::MissingRequiredArgument, message)?);
    }
    Ok(matches)
}

/// Returns whether the command line of `urilines` has the option `--progress`.
pub fn shows_progress(matches: &ArgMatches<'_>) -> bool {
    matches.get_flag(PROGRESS.name)
}

/// Returns the job that the words of the command line of `urilines` ask for. `hasher` is for the
/// texts that `unique` keeps.
///
/// # Errors
///
/// Those of `uri_streams::command_line::job`, and `Words` if there is no such command.
pub fn job<'a>(matches: &ArgMatches<'a>, hasher: RandomState) -> Result<Job<'a>, CommandLineError> {
    match matches.subcommand() {
        Some((name, words)) => match command_named(name) {
            Some(command) => command_line::job(&command_line(command, words), hasher),
            None => Err(CommandLineError::Words),
        },
        None => Err(CommandLineError::Words),
    }
}

/// Returns what the words after the name of a command say.
fn command_line<'a>(command: CommandName, words: &ArgMatches<'a>) -> CommandLine<'a>
    ensures command { result.command ≡ command }
    ensures kind { IsKindNamed (first_value (found_of words.now) (codes "kind")) result.kind }
    ensures base { option_map (λ s. s.now) result.base
        ≡ first_value (found_of words.now) (codes "base") }
    ensures invert { IsFlag (found_of words.now) (codes "invert") result.is_inverted }
    ensures prefer_relative { IsFlag (found_of words.now) (codes "prefer-relative")
        result.prefers_relative }
    ensures scheme_rules { IsFlag (found_of words.now) (codes "scheme-rules") result.scheme_rules }
    ensures basic { IsFlag (found_of words.now) (codes "basic") result.is_basic }
    ensures mend { IsFlag (found_of words.now) (codes "mend") result.is_mended }
    ensures delimiter { option_map (λ s. s.now) result.delimiter
        ≡ first_value (found_of words.now) (codes "delimiter") }
    ensures null { IsFlag (found_of words.now) (codes "null") result.is_null }
    ensures errors { IsModeNamed (first_value (found_of words.now) (codes "errors")) result.errors }
{
    CommandLine {
        command,
        kind: kind_in(words),
        base: words.get_str("base"),
        is_inverted: words.get_flag(INVERT.name),
        is_mended: words.get_flag(MENDED.name),
        prefers_relative: words.get_flag(PREFER_RELATIVE.name),
        scheme_rules: words.get_flag(SCHEME_RULES.name),
        is_basic: words.get_flag(BASIC.name),
        field: words.get_one::<u32>(FIELD.name),
        delimiter: words.get_str(DELIMITER.name),
        is_null: words.get_flag(NULL.name),
        errors: errors_in(words),
        max_line: words.get_one::<u32>(MAX_LINE.name),
    }
}

/// Returns the kind that the words name.
fn kind_in(words: &ArgMatches<'_>) -> Option<KindName>
    ensures { IsKindNamed (first_value (found_of words.now) (codes "kind")) result }
{
    match words.get_str("kind") {
        Some(word) => kind_named(word),
        None => None,
    }
}

/// Returns what happens to a line that is an error, if the words say it.
fn errors_in(words: &ArgMatches<'_>) -> Option<OnError>
    ensures { IsModeNamed (first_value (found_of words.now) (codes "errors")) result }
{
    match words.get_str(ERRORS.name) {
        Some(word) => on_error_named(word),
        None => None,
    }
}
