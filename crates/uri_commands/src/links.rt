//! The command `links BASE REF...`: the outcomes of references that are noted one after the other
//! against a base.
ghost use Rattle.std.specs.Prelude.{◌≡◌, ◌<◌, ◌∷◌, ◌++◌, ◌||◌, ℕ, List, IfOk, IfErr, IsTrue, length, map, not, true, false, codes};
ghost use Rattle.std.specs.Io.KnownBytes.{Appends};
ghost use Rattle.fluent_uri.specs.Prelude.{IsOfKind, uri, uri_ref, uri_ref_text};
ghost use Rattle.uri_links.specs.OutcomesInWords.{IdIsInRange};
ghost use Rattle.uri_links.specs.Registers.{texts_of};
ghost use Rattle.uri_commands.specs.Commands.{Links, are_of_kind, texts};
ghost use Rattle.uri_commands.specs.Links.{link_lines, outcome_line, target_line, text_at};
ghost use Rattle.uri_commands.specs.NotedLinks.{EachIdHasTarget, lines_in};
ghost use Rattle.uri_commands.specs.Ends.{has_output_failed};
ghost use Rattle.uri_commands.specs.Refusals.{IsErrorOf, IsErrorOfCommand};
ghost use Rattle.uri_commands.specs.declared.refusal.CommandError.TheVariants.{Reference};
ghost use Rattle.fluent_uri.specs.declared.ParseError.{ParseError};
ghost use Rattle.fluent_uri.specs.declared.normalize.RuleSet.{RuleSet};

use crate::refusal::{CommandError, resolve_message};
use crate::sink::{Sink, put_both};
use fluent_uri::normalize::{Normalizer, RuleSet};
use fluent_uri::{Uri, UriRef};
use itoa::Buffer;
use std::alloc::Global;
use std::io::Write;
use uri_links::links::{Outcome, Register};

/// The outcomes of references, and the register that has their targets.
#[derive(Drop)]
pub struct NotedLinks {
    register: Register<RuleSet>,
    outcomes: Vec<Outcome>,
}

/// Notes the first reference of `links` and the others against the base, in order, in a new
/// register: by these rules of schemes.
///
/// # Errors
///
/// - `Base` if the base is not a URI.
/// - Otherwise `Reference` if one of the references is not a URI reference.
/// - `OutOfMemory` if each word is of its kind and allocation fails.
pub fn noted(
    alloc: Global,
    base: &str,
    reference: &str,
    others: &[String],
    rules: RuleSet,
) -> Result<NotedLinks, CommandError>
    ensures base { IfOk result (λ _. IsOfKind uri base.now) }
    ensures references { IfOk result (λ _.
        are_of_kind uri_ref (reference.now ∷ texts others.now) ≡ true) }
    ensures refused { IfErr result
        (IsErrorOfCommand (Links rules base.now reference.now (texts others.now))) }
    ensures targets { IfOk result EachIdHasTarget }
    ensures lines { IfOk result (λ noted.
        lines_in noted ≡ link_lines rules base.now (reference.now ∷ texts others.now)) }
    ensures unwritten { has_output_failed result ≡ false }
{
    let base = Uri::<&str>::parse(base).map_err(CommandError::Base)?;
    let references = parse_references(alloc, reference, others)?;
    let mut register = Register::new(alloc, Normalizer::new().scheme_rules_with(rules));
    let outcomes = register.note_all(&base, references.as_slice())?;
    Ok(NotedLinks { register, outcomes })
}

/// Parses the first reference of `links` and the others, each as a URI reference.
///
/// # Errors
///
/// Returns `Reference` for the first word that is not a URI reference. If there is none and
/// allocation fails, returns `OutOfMemory`.
fn parse_references<'a>(
    alloc: Global,
    reference: &'a str,
    others: &'a [String],
) -> Result<Vec<UriRef<&'a str>>, CommandError>
    ensures references { IfOk result (λ references.
        map uri_ref_text references.items ≡ reference.now ∷ texts others.now) }
    ensures of_kind { IfOk result (λ _.
        are_of_kind uri_ref (reference.now ∷ texts others.now) ≡ true) }
    ensures refused { (set : RuleSet) (base : List ℕ) → IsOfKind uri base
        → IfErr result (IsErrorOfCommand (Links set base reference.now (texts others.now))) }
    ensures unwritten { has_output_failed result ≡ false }
{
    let mut references = Vec::new(alloc);
    let mut is_refused = references.push(parse_reference(reference)?).is_err();
    for word in others {
        let reference = parse_reference(word.as_str())?;
        is_refused = is_refused || references.push(reference).is_err();
    }
    if is_refused {
        return Err(CommandError::OutOfMemory);
    }
    Ok(references)
}

/// Parses a word of `links` as a URI reference.
fn parse_reference(word: &str) -> Result<UriRef<&str>, CommandError>
    ensures of_kind { IfOk result (λ _. IsOfKind uri_ref word.now) }
    ensures text { IfOk result (λ reference. uri_ref_text reference ≡ word.now) }
    ensures refused { IfErr result (λ why.
        (e : ParseError) × (why ≡ Reference e) × IsErrorOf uri_ref word.now e) }
{
    UriRef::<&str>::parse(word).map_err(CommandError::Reference)
}

impl NotedLinks {
    /// Writes a line of `links` for each reference that was noted. Returns whether all were
    /// written.
    pub fn write_lines<O: Write>(&self, out: &mut Sink<O>) -> bool
        requires { EachIdHasTarget self.now }
        ensures whole { IsTrue result → Appends (O.contents out.old.writer)
            (O.contents out.new.writer) (lines_in self.now) }
        ensures failed { out.new.has_failed ≡ (not result || out.old.has_failed) }
    {
        for &outcome in self.outcomes.as_slice() {
            if !write_outcome(out, &self.register, outcome) {
                return false;
            }
        }
        true
    }
}

/// Writes the line of `links` for an outcome of noting a reference. Returns whether it was written
/// whole.
fn write_outcome<O: Write>(
    out: &mut Sink<O>,
    register: &Register<RuleSet>,
    outcome: Outcome,
) -> bool
    requires { IdIsInRange (texts_of register.now) outcome }
    ensures whole { IsTrue result → Appends (O.contents out.old.writer)
        (O.contents out.new.writer) (outcome_line (texts_of register.now) outcome) }
    ensures failed { out.new.has_failed ≡ (not result || out.old.has_failed) }
{
    match outcome {
        Outcome::New(id) => write_target(out, "new", register, id),
        Outcome::Known(id) => write_target(out, "known", register, id),
        Outcome::Refused(error) => write_refused(out, resolve_message(error)),
    }
}

/// Writes the line of `links` for a reference that has no target. Returns whether it was written
/// whole.
fn write_refused<O: Write>(out: &mut Sink<O>, message: &str) -> bool
    ensures whole { IsTrue result → Appends (O.contents out.old.writer)
        (O.contents out.new.writer) (codes "refused " ++ message.now ++ codes "\n") }
    ensures failed { out.new.has_failed ≡ (not result || out.old.has_failed) }
{
    put_both(out, b"refused ", message.as_bytes()) && out.put(b"\n")
}

/// Writes the line of `links` for a target: a word, its id and its text. Returns whether it was
/// written whole.
fn write_target<O: Write>(
    out: &mut Sink<O>,
    word: &str,
    register: &Register<RuleSet>,
    id: usize,
) -> bool
    requires { id < length (texts_of register.now) }
    ensures whole { IsTrue result → Appends (O.contents out.old.writer)
        (O.contents out.new.writer) (target_line word.now id (text_at (texts_of register.now) id)) }
    ensures failed { out.new.has_failed ≡ (not result || out.old.has_failed) }
{
    match register.target(id) {
        Some(target) => write_words(out, word, id, target.as_str()),
        None => unreachable!(),
    }
}

/// Writes a line of a word, a number and a text. Returns whether it was written whole.
fn write_words<O: Write>(out: &mut Sink<O>, word: &str, number: usize, text: &str) -> bool
    ensures whole { IsTrue result → Appends (O.contents out.old.writer)
        (O.contents out.new.writer) (target_line word.now number text.now) }
    ensures failed { out.new.has_failed ≡ (not result || out.old.has_failed) }
{
    let mut digits = Buffer::new();
    put_both(out, word.as_bytes(), b" ")
        && put_both(out, digits.format(number).as_bytes(), b" ")
        && put_both(out, text.as_bytes(), b"\n")
}
