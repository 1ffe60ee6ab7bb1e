//! A command with what it remembers of earlier lines.
ghost use Rattle.std.specs.Prelude.{◌≡◌, [], ℕ, List, IfOk, IsTrue, string_bytes, IsAscii};
ghost use Rattle.fluent_uri.specs.Prelude.{rules_of_set, uri_ref_text, uri_text};
ghost use Rattle.uri_commands.specs.Links.{text_at};
ghost use Rattle.uri_commands.specs.MendedLinks.{mended_link};
ghost use Rattle.uri_links.specs.Outcomes.{outcome_of};
ghost use Rattle.uri_links.specs.Registers.{target_rules, texts_of};
ghost use Rattle.fluent_uri.specs.declared.normalize.RuleSet.{RuleSet};
ghost use Rattle.uri_commands.specs.Kinds.{kind_named};
ghost use Rattle.uri_streams.specs.Results.{Text};
ghost use Rattle.uri_streams.specs.Returned.{IsResult, result_in, text_in};
ghost use Rattle.uri_streams.specs.Tasks as tasks;
ghost use Rattle.uri_streams.specs.Tasks.{HasMet, Remembers, cut_result, link_result, noted_result, unique_result};
ghost use Rattle.uri_streams.specs.declared.command.Command.{Command};

use crate::command::{Command, LineCommand};
use crate::fault::{LineError, NoText};
use crate::job::Job;
use crate::line_result::{LineResult, refused};
use crate::mending::{mend, mended_or_trimmed, text_kind};
use crate::met::MetTexts;
use crate::results::{check, normalize, parse, passed_if, query};
use crate::targets::{relativize, resolve};
use fluent_uri::normalize::{Normalizer, RuleSet};
use fluent_uri::{Uri, UriRef};
use std::alloc::{AllocError, Global};
use uri_commands::kinds::KindName;
use uri_commands::refusal::CommandError;
use uri_links::links::{Outcome, Register};

/// A command with what it remembers of earlier lines.
#[derive(Drop)]
pub(crate) enum Task<'a> {
    /// A command that remembers nothing.
    Each(LineCommand<'a>),
    /// `urilines unique`, with the normal forms that were met.
    Unique(UniqueTask),
    /// `urilines links`, with the targets that were met.
    Links(LinksTask<'a>),
}

/// The task of `urilines unique`: a kind, with the normal forms that were met.
#[derive(Drop)]
pub(crate) struct UniqueTask {
    /// The kind of each line's text.
    kind: KindName,
    /// The rules of schemes that the normal forms are by.
    rules: RuleSet,
    /// The normal forms that were met in earlier lines.
    met: MetTexts,
}

/// The task of `urilines links`: a base, with the targets that were met.
#[derive(Drop)]
pub(crate) struct LinksTask<'a> {
    /// The base that each line is resolved against.
    base: Uri<&'a str>,
    /// The targets that were met in earlier lines, each with its id.
    register: Register<RuleSet>,
}

impl<'a> Task<'a> {
    /// Returns the task of a command before the first line, which remembers nothing yet.
    pub(crate) fn new(alloc: Global, command: Command<'a>) -> Task<'a>
        ensures { Remembers result command.entry [] }
    {
        match command {
            Command::Each(command) => Task::Each(command),
            Command::Unique(kind, rules, hasher) => Task::Unique(UniqueTask {
                kind,
                rules,
                met: MetTexts::new(alloc, hasher),
            }),
            Command::Links(base, rules) => Task::Links(LinksTask {
                base,
                register: Register::new(alloc, Normalizer::new().scheme_rules_with(rules)),
            }),
        }
    }

    /// Returns the result of what the command gets of a line: bytes that need not be UTF-8, or
    /// nothing.
    ///
    /// # Errors
    ///
    /// Only if allocation fails.
    pub(crate) fn result_for<'t>(
        &mut self,
        alloc: Global,
        job: &Job<'_>,
        text: Result<&'t [u8], NoText>,
    ) -> Result<LineResult<'t>, AllocError>
        ensures { (known : List (List ℕ)) → Remembers self.old job.now.command known
            → IfOk result (λ line_result. IsResult job.now.command
            (cut_result job.now known (text_in text.entry)) line_result self.new) }
    {
        match text {
            Ok(bytes) => self.bytes_result(alloc, job, bytes, false),
            Err(why) => Ok(self.no_text_result(why)),
        }
    }

    /// Returns the result of bytes under the task's command, which gets their text, or what that is
    /// mended to if the job asks for it. `is_ascii` is whether the bytes are known to be ASCII.
    ///
    /// # Errors
    ///
    /// Only if allocation fails.
    #[inline(always)]
    pub(crate) fn bytes_result<'t>(
        &mut self,
        alloc: Global,
        job: &Job<'_>,
        bytes: &'t [u8],
        is_ascii: bool,
    ) -> Result<LineResult<'t>, AllocError>
        requires { IsTrue is_ascii → IsAscii bytes.now }
        ensures { (known : List (List ℕ)) → Remembers self.old job.now.command known
            → IfOk result (λ line_result. IsResult job.now.command
            (tasks.bytes_result job.now known bytes.now) line_result self.new) }
    {
        let text = if is_ascii {
            unsafe { str::from_utf8_unchecked(bytes) }
        } else {
            match str::from_utf8(bytes) {
                Ok(text) => text,
                Err(error) => return Ok(self.no_text_result(NoText::NotUtf8(error.valid_up_to()))),
            }
        };
        if job.is_mended {
            return self.mended_result(alloc, job, text);
        }
        self.text_result(alloc, text)
    }

    /// Returns the result of a line of which the command gets no text.
    #[cold]
    #[inline(never)]
    fn no_text_result(&self, why: NoText) -> LineResult<'static>
        ensures { (command : Command) → (known : List (List ℕ)) → Remembers self.now command known
            → result_in result ≡ tasks.no_text_result command why }
    {
        match self {
            Task::Each(command) => no_text_result(command, why),
            Task::Unique(_) => LineResult::Error(LineError::NoText(why)),
            Task::Links(_) => LineResult::Error(LineError::NoText(why)),
        }
    }

    /// Returns the result of the text that a line has, mended first as the link of a page.
    ///
    /// # Errors
    ///
    /// Only if allocation fails.
    #[cold]
    #[inline(never)]
    fn mended_result(
        &mut self,
        alloc: Global,
        job: &Job<'_>,
        text: &str,
    ) -> Result<LineResult<'static>, AllocError>
        ensures { (known : List (List ℕ)) → Remembers self.old job.now.command known
            → IfOk result (λ line_result. IsResult job.now.command
            (tasks.text_result job.now.command known
            (mended_link (tasks.text_kind job.now.command) text.now)) line_result self.new) }
    {
        let link = mended_or_trimmed(alloc, text_kind(&job.command), text)?;
        self.text_result(alloc, link.as_str())?.into_owned(alloc)
    }

    /// Returns the result of a text under the task's command, and remembers what later lines need.
    #[inline(always)]
    fn text_result<'t>(
        &mut self,
        alloc: Global,
        text: &'t str,
    ) -> Result<LineResult<'t>, AllocError>
        ensures { (command : Command) → (known : List (List ℕ)) → Remembers self.old command known
            → IfOk result (λ line_result.
            IsResult command (tasks.text_result command known text.now) line_result self.new) }
    {
        match self {
            Task::Each(command) => match &*command {
                LineCommand::Normalize(kind, rules) => normalize(alloc, *kind, *rules, text),
                LineCommand::Resolve(base, is_basic) => resolve(alloc, base, *is_basic, text),
                LineCommand::Relativize(base, prefers) => relativize(alloc, base, *prefers, text),
                LineCommand::Check(kind, is_inverted) => Ok(check(*kind, *is_inverted, text)),
                LineCommand::Mend(kind) => mend(alloc, *kind, text),
                LineCommand::Parse(kind) => parse(alloc, *kind, text),
                LineCommand::Query(kind) => query(alloc, *kind, text),
            },
            Task::Unique(unique) => unique.result_for(alloc, text),
            Task::Links(links) => links.result_for(alloc, text),
        }
    }
}

/// Returns the result of a line of which a command gets no text that remembers nothing.
fn no_text_result(command: &LineCommand<'_>, why: NoText) -> LineResult<'static>
    ensures { result_in result ≡ tasks.no_text_result (Command.Each command.now) why }
{
    match command {
        LineCommand::Check(_, is_inverted) => no_text_checked(*is_inverted, why),
        LineCommand::Normalize(_, _) => LineResult::Error(LineError::NoText(why)),
        LineCommand::Resolve(_, _) => LineResult::Error(LineError::NoText(why)),
        LineCommand::Relativize(_, _) => LineResult::Error(LineError::NoText(why)),
        LineCommand::Mend(_) => LineResult::Error(LineError::NoText(why)),
        LineCommand::Parse(_) => LineResult::Error(LineError::NoText(why)),
        LineCommand::Query(_) => LineResult::Error(LineError::NoText(why)),
    }
}

/// Returns the result of `urilines check` for a line of which it gets no text. The line is not of
/// the kind, so it passes if `is_inverted`; but one that is too long is not kept, and so an error.
fn no_text_checked(is_inverted: bool, why: NoText) -> LineResult<'static>
    ensures { (kind : _) → result_in result
        ≡ tasks.no_text_result (Command.Each (LineCommand.Check kind is_inverted)) why }
{
    match why {
        NoText::TooLong(_) => LineResult::Error(LineError::NoText(why)),
        NoText::NoField(_) => passed_if(is_inverted),
        NoText::NotUtf8(_) => passed_if(is_inverted),
    }
}

impl UniqueTask {
    /// Returns the result of `urilines unique` for a text: its normal form if that was not met
    /// before, no line if it was, or an error.
    fn result_for<'t>(&mut self, alloc: Global, text: &'t str) -> Result<LineResult<'t>, AllocError>
        ensures output { (known : List (List ℕ)) → HasMet self.old.met known
            → IfOk result (λ line_result. let next = unique_result self.old.rules
            (kind_named self.old.kind) known text.now in
            (result_in line_result ≡ next.0) × HasMet self.new.met next.1) }
        ensures kind { self.new.kind ≡ self.old.kind }
        ensures rules { self.new.rules ≡ self.old.rules }
    {
        match normalize(alloc, self.kind, self.rules, text)? {
            LineResult::Text(normal) => text_if_new(alloc, &mut self.met, normal),
            LineResult::Borrowed(normal) => borrowed_if_new(alloc, &mut self.met, normal),
            LineResult::Error(fault) => Ok(LineResult::Error(fault)),
            LineResult::Unchanged => unreachable!(),
            LineResult::NoLine => unreachable!(),
        }
    }
}

impl<'a> LinksTask<'a> {
    /// Returns the result of `urilines links` for a text: whether its target is new, the target's
    /// id and the target, or an error.
    fn result_for(&mut self, alloc: Global, text: &str) -> Result<LineResult<'static>, AllocError>
        ensures output { (set : RuleSet) → target_rules self.old.register ≡ rules_of_set set
            → IfOk result (λ line_result. (result_in line_result, texts_of self.new.register)
            ≡ link_result set (uri_text self.old.base) (texts_of self.old.register) text.now) }
        ensures base { self.new.base ≡ self.old.base }
        ensures rules { target_rules self.new.register ≡ target_rules self.old.register }
    {
        link(alloc, &self.base, &mut self.register, text)
    }
}

/// Returns a normal form as the result if it was not met before, and otherwise no line. Adds it to
/// those that were met.
fn text_if_new(
    alloc: Global,
    met: &mut MetTexts,
    normal: String,
) -> Result<LineResult<'static>, AllocError>
    ensures { (known : List (List ℕ)) → HasMet met.old known → IfOk result (λ line_result.
        (result_in line_result ≡ (tasks.text_if_new known (Text (string_bytes normal))).0)
        × HasMet met.new (tasks.text_if_new known (Text (string_bytes normal))).1) }
{
    if met.contains(normal.as_str()) {
        return Ok(LineResult::NoLine);
    }
    let key = String::from_str(alloc, normal.as_str())?;
    met.note(key)?;
    Ok(LineResult::Text(normal))
}

/// Returns a normal form that is borrowed as the result if it was not met before, and otherwise no
/// line. Adds a copy of it to those that were met.
fn borrowed_if_new<'t>(
    alloc: Global,
    met: &mut MetTexts,
    normal: &'t str,
) -> Result<LineResult<'t>, AllocError>
    ensures { (known : List (List ℕ)) → HasMet met.old known → IfOk result (λ line_result.
        (result_in line_result ≡ (tasks.text_if_new known (Text normal.now)).0)
        × HasMet met.new (tasks.text_if_new known (Text normal.now)).1) }
{
    if met.contains(normal) {
        return Ok(LineResult::NoLine);
    }
    met.note(String::from_str(alloc, normal)?)?;
    Ok(LineResult::Borrowed(normal))
}

/// Parses a text as a reference, notes its target in the register, and returns the result of
/// `urilines links` for it.
fn link(
    alloc: Global,
    base: &Uri<&str>,
    register: &mut Register<RuleSet>,
    text: &str,
) -> Result<LineResult<'static>, AllocError>
    ensures output { (set : RuleSet) → target_rules register.old ≡ rules_of_set set
        → IfOk result (λ line_result. (result_in line_result, texts_of register.new)
        ≡ link_result set (uri_text base.now) (texts_of register.old) text.now) }
    ensures rules { target_rules register.new ≡ target_rules register.old }
{
    match UriRef::<&str>::parse(text) {
        Ok(reference) => note(alloc, base, register, &reference),
        Err(error) => Ok(refused(CommandError::Reference(error))),
    }
}

/// Notes the target of a reference in the register, and returns the result of `urilines links` for
/// it.
fn note(
    alloc: Global,
    base: &Uri<&str>,
    register: &mut Register<RuleSet>,
    reference: &UriRef<&str>,
) -> Result<LineResult<'static>, AllocError>
    ensures output { IfOk result (λ line_result. (result_in line_result, texts_of register.new)
        ≡ noted_result (outcome_of (target_rules register.old) (uri_text base.now)
        (texts_of register.old) (uri_ref_text reference.now))) }
    ensures rules { target_rules register.new ≡ target_rules register.old }
{
    let outcome = register.note(base, reference)?;
    outcome_result(alloc, register, outcome)
}

/// Returns the result of `urilines links` for the outcome of noting a target in the register.
fn outcome_result(
    alloc: Global,
    register: &Register<RuleSet>,
    outcome: Outcome,
) -> Result<LineResult<'static>, AllocError>
    ensures { IfOk result (λ line_result.
        result_in line_result ≡ tasks.outcome_result (outcome, texts_of register.now)) }
{
    match outcome {
        Outcome::New(id) => link_line(alloc, "new", register, id),
        Outcome::Known(id) => link_line(alloc, "known", register, id),
        Outcome::Refused(error) => Ok(refused(CommandError::Target(error))),
    }
}

/// Returns the line that `urilines links` writes for a target: a word, the target's id and its
/// text.
fn link_line(
    alloc: Global,
    word: &str,
    register: &Register<RuleSet>,
    id: usize,
) -> Result<LineResult<'static>, AllocError>
    ensures { IfOk result (λ line_result.
        result_in line_result ≡ Text (tasks.link_line word.now id (texts_of register.now))) }
{
    let target = target_text(register, id);
    Ok(LineResult::Text(format!(in alloc; "{word} {id} {target}")?))
}

/// Returns the text of the target with this id in the register, or an empty text if there is none.
fn target_text(register: &Register<RuleSet>, id: usize) -> &str
    ensures { result.now ≡ text_at (texts_of register.now) id }
{
    match register.target(id) {
        Some(target) => target.as_str(),
        None => "",
    }
}
