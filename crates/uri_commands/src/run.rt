//! Running a command, over any two writers.
ghost use Rattle.std.specs.Prelude.{◌≡◌, ◌↔◌, ◌≤◌, ◌++◌, IsOk, IfOk, IfErr, OnOk, None, Some, ◌≢◌, ◌||◌, codes, not, true};
ghost use Rattle.std.specs.Io.KnownBytes.{Appends, Keeps};
ghost use Rattle.uri_commands.specs.Commands.{Command as Asked, Parse, Normalize, Mend, Resolve, Links, IsCommand, Prints, output_of, texts, words_of};
ghost use Rattle.uri_commands.specs.Kinds.{kind_named};
ghost use Rattle.uri_commands.specs.Asked.{contract_command};
ghost use Rattle.uri_commands.specs.Ends.{IsSuccess, IsFailure, WritesLineOrPrefix, has_output_failed, is_output_failure};
ghost use Rattle.uri_commands.specs.Refusals.{IsErrorOf, IsErrorOfCommand, error_line, usage_line};
ghost use Rattle.uri_commands.specs.Texts.{components_in};
ghost use Rattle.uri_commands.specs.declared.refusal.CommandError.{CommandError};
ghost use Rattle.uri_commands.specs.declared.refusal.CommandError.TheVariants.{OutputFailed};
ghost use Rattle.fluent_uri.specs.Prelude.{IsOfKind, components};

use crate::command::{BaseName, Command};
use crate::kinds::{KindName, parse_as_iri_ref};
use crate::lines::Texts;
use crate::links::noted;
use crate::mending::mended;
use crate::normal::normalize_text;
use crate::refusal::CommandError;
use crate::sink::{Sink, put_both};
use crate::target::target;
use crate::usage::show_usage;
use fluent_uri::ParseError;
use fluent_uri::normalize::RuleSet;
use std::alloc::Global;
use std::io::Write;

/// How a command ended.
#[derive(Drop)]
pub struct Ended {
    /// The exit status.
    pub status: u8,
    /// Whether the error output took its whole line, or there was none.
    pub is_shown: bool,
}

/// Runs the command that the words make.
///
/// | Status | When | `out` got | `err` got |
/// |---|---|---|---|
/// | 0 | the command succeeded | its output | nothing |
/// | 1 | it failed | nothing, unless writing to it failed | `error: `, the message and a newline |
/// | 2 | the words make no command | nothing | the usage line |
///
/// If `err` fails, it got a prefix of its line, and the status is the same.
pub fn run<O: Write, E: Write>(
    alloc: Global,
    words: &[String],
    out: &mut Sink<O>,
    err: &mut Sink<E>,
) -> Ended
    ensures succeeded { result.status ≡ 0 → IsSuccess (texts words.now) (O.contents out.old.writer)
        (O.contents out.new.writer) (E.contents err.old.writer) (E.contents err.new.writer) }
    ensures refused { IsFailure (texts words.now) (O.contents out.old.writer)
        (O.contents out.new.writer) result.status }
    ensures usage { (result.status ≡ 2) ↔ ¬ IsCommand (texts words.now) }
    ensures usage_keeps { result.status ≡ 2
        → Keeps (O.contents out.old.writer) (O.contents out.new.writer) }
    ensures status { result.status ≤ 2 }
    ensures shown { result.status ≡ 1 → (command : Asked) × (why : CommandError)
        × (texts words.now ≡ words_of command) × IsErrorOfCommand command why
        × (why ≢ OutputFailed → Keeps (O.contents out.old.writer) (O.contents out.new.writer))
        × (out.new.has_failed ≡ (is_output_failure why || out.old.has_failed))
        × WritesLineOrPrefix (E.contents err.old.writer) (E.contents err.new.writer)
        (error_line why) result.is_shown }
    ensures usage_shown { result.status ≡ 2
        → WritesLineOrPrefix (E.contents err.old.writer) (E.contents err.new.writer) usage_line
        result.is_shown }
    // An output that failed is that of a writer that failed, and so is a line that is not shown.
    ensures writing { result.status ≢ 1 → out.new.has_failed ≡ out.old.has_failed }
    ensures err_writing { err.new.has_failed ≡ (not result.is_shown || err.old.has_failed) }
{
    let Some(command) = Command::from_words(words) else {
        let is_shown = show_usage(err);
        return Ended {
            status: 2,
            is_shown,
        };
    };
    match run_command(alloc, command, out) {
        Ok(()) => Ended {
            status: 0,
            is_shown: true,
        },
        Err(why) => {
            let is_shown = why.show(err);
            Ended {
                status: 1,
                is_shown,
            }
        }
    }
}

/// Runs a command, and writes its output to `out`.
fn run_command<O: Write>(
    alloc: Global,
    command: Command<'_>,
    out: &mut Sink<O>,
) -> Result<(), CommandError>
    ensures succeeded { OnOk result
        (Prints (O.contents out.old.writer) (O.contents out.new.writer)
        (contract_command command.entry)) }
    ensures refused { IfErr result (IsErrorOfCommand (contract_command command.entry)) }
    ensures keeps { output_of (contract_command command.entry) ≡ None
        → Keeps (O.contents out.old.writer) (O.contents out.new.writer) }
    ensures kept { IfErr result (λ why.
        why ≢ OutputFailed → Keeps (O.contents out.old.writer) (O.contents out.new.writer)) }
    ensures writing { out.new.has_failed ≡ (has_output_failed result || out.old.has_failed) }
{
    match command {
        Command::Parse(kind, text) => parse(kind, text, out),
        Command::Normalize(kind, text, rules) => normalize(alloc, kind, text, rules, out),
        Command::Mend(kind, text) => mend(alloc, kind, text, out),
        Command::Resolve(kind, base, reference) => resolve(alloc, kind, base, reference, out),
        Command::Links(base, reference, others, rules) => {
            links(alloc, base, reference, others, rules, out)
        }
    }
}

/// Runs `parse`: parses a text, and writes a line `NAME=TEXT` for each component that is present.
fn parse<O: Write>(kind: KindName, text: &str, out: &mut Sink<O>) -> Result<(), CommandError>
    ensures succeeded { OnOk result
        (Prints (O.contents out.old.writer) (O.contents out.new.writer) (Parse kind text.now)) }
    ensures refused { IfErr result (IsErrorOfCommand (Parse kind text.now)) }
    ensures keeps { output_of (Parse kind text.now) ≡ None
        → Keeps (O.contents out.old.writer) (O.contents out.new.writer) }
    ensures kept { IfErr result (λ why.
        why ≢ OutputFailed → Keeps (O.contents out.old.writer) (O.contents out.new.writer)) }
    ensures writing { out.new.has_failed ≡ (has_output_failed result || out.old.has_failed) }
{
    written(parse_components(kind, text)?.write_lines(out))
}

/// Runs `normalize`: writes the normal form of a text as a line.
fn normalize<O: Write>(
    alloc: Global,
    kind: KindName,
    text: &str,
    rules: RuleSet,
    out: &mut Sink<O>,
) -> Result<(), CommandError>
    ensures succeeded { OnOk result
        (Prints (O.contents out.old.writer) (O.contents out.new.writer)
        (Normalize rules kind text.now)) }
    ensures refused { IfErr result (IsErrorOfCommand (Normalize rules kind text.now)) }
    ensures keeps { output_of (Normalize rules kind text.now) ≡ None
        → Keeps (O.contents out.old.writer) (O.contents out.new.writer) }
    ensures kept { IfErr result (λ why.
        why ≢ OutputFailed → Keeps (O.contents out.old.writer) (O.contents out.new.writer)) }
    ensures writing { out.new.has_failed ≡ (has_output_failed result || out.old.has_failed) }
{
    let normal = normalize_text(alloc, kind, text, rules)?;
    print_line(out, normal.as_str())
}

/// Runs `mend`: writes the text that a link is mended to as a line.
fn mend<O: Write>(
    alloc: Global,
    kind: KindName,
    text: &str,
    out: &mut Sink<O>,
) -> Result<(), CommandError>
    ensures succeeded { OnOk result
        (Prints (O.contents out.old.writer) (O.contents out.new.writer) (Mend kind text.now)) }
    ensures refused { IfErr result (IsErrorOfCommand (Mend kind text.now)) }
    ensures keeps { output_of (Mend kind text.now) ≡ None
        → Keeps (O.contents out.old.writer) (O.contents out.new.writer) }
    ensures kept { IfErr result (λ why.
        why ≢ OutputFailed → Keeps (O.contents out.old.writer) (O.contents out.new.writer)) }
    ensures writing { out.new.has_failed ≡ (has_output_failed result || out.old.has_failed) }
{
    let link = mended(alloc, kind, text)?;
    print_line(out, link.as_str())
}

/// Runs `resolve`: writes the target of a reference against a base as a line.
fn resolve<O: Write>(
    alloc: Global,
    kind: BaseName,
    base: &str,
    reference: &str,
    out: &mut Sink<O>,
) -> Result<(), CommandError>
    ensures succeeded { OnOk result
        (Prints (O.contents out.old.writer) (O.contents out.new.writer)
        (Resolve kind base.now reference.now)) }
    ensures refused { IfErr result (IsErrorOfCommand (Resolve kind base.now reference.now)) }
    ensures keeps { output_of (Resolve kind base.now reference.now) ≡ None
        → Keeps (O.contents out.old.writer) (O.contents out.new.writer) }
    ensures kept { IfErr result (λ why.
        why ≢ OutputFailed → Keeps (O.contents out.old.writer) (O.contents out.new.writer)) }
    ensures writing { out.new.has_failed ≡ (has_output_failed result || out.old.has_failed) }
{
    let target = target(alloc, kind, base, reference)?;
    print_line(out, target.as_str())
}

/// Runs `links`: notes references against a base, and writes a line for each.
fn links<O: Write>(
    alloc: Global,
    base: &str,
    reference: &str,
    others: &[String],
    rules: RuleSet,
    out: &mut Sink<O>,
) -> Result<(), CommandError>
    ensures succeeded { OnOk result (Prints (O.contents out.old.writer) (O.contents out.new.writer)
        (Links rules base.now reference.now (texts others.now))) }
    ensures refused { IfErr result
        (IsErrorOfCommand (Links rules base.now reference.now (texts others.now))) }
    ensures keeps { output_of (Links rules base.now reference.now (texts others.now)) ≡ None
        → Keeps (O.contents out.old.writer) (O.contents out.new.writer) }
    ensures kept { IfErr result (λ why.
        why ≢ OutputFailed → Keeps (O.contents out.old.writer) (O.contents out.new.writer)) }
    ensures writing { out.new.has_failed ≡ (has_output_failed result || out.old.has_failed) }
{
    let noted = noted(alloc, base, reference, others, rules)?;
    written(noted.write_lines(out))
}

/// Writes the output of a command that runs: a text and a newline.
fn print_line<O: Write>(out: &mut Sink<O>, text: &str) -> Result<(), CommandError>
    ensures printed { OnOk result
        (Appends (O.contents out.old.writer) (O.contents out.new.writer) (text.now ++ codes "\n")) }
    ensures failed { IfErr result (λ why. why ≡ OutputFailed) }
    ensures writing { out.new.has_failed ≡ (has_output_failed result || out.old.has_failed) }
{
    written(put_both(out, text.as_bytes(), b"\n"))
}

/// Returns the outcome of a command for whether its output was written whole.
fn written(is_whole: bool) -> Result<(), CommandError>
    ensures whole { OnOk result (is_whole ≡ true) }
    ensures failed { IfErr result (λ why. why ≡ OutputFailed) }
    ensures output { has_output_failed result ≡ not is_whole }
{
    if is_whole {
        Ok(())
    } else {
        Err(CommandError::OutputFailed)
    }
}

/// Parses a text as the kind, for the run of `parse`, and returns the texts of its components.
fn parse_components(kind: KindName, text: &str) -> Result<Texts<'_>, ParseError>
    ensures accepts { IsOk result ↔ IsOfKind (kind_named kind) text.now }
    ensures texts { IfOk result (λ texts. components_in texts ≡ components text.now) }
    ensures error { IfErr result (IsErrorOf (kind_named kind) text.now) }
{
    Ok(Texts::from(parse_as_iri_ref(kind, text)?))
}
