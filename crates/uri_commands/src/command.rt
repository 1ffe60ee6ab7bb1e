//! The command that the words of a command line make.
ghost use Rattle.std.specs.Prelude.{◌≡◌, ◌≢◌, ◌∷◌, [], MatchOption};
ghost use Rattle.uri_commands.specs.Commands.{AreWordsOfLinks, AreWordsOfResolve, AreWordsOfRuledLinks, AreWordsOfRuledNormalize, AreWordsOfTextCommand, IsCommand, IsNameOfTextCommand, word_of_base, words_of, texts};
ghost use Rattle.uri_commands.specs.Asked.{contract_command};
ghost use Rattle.uri_commands.specs.Kinds.{word_of_kind};

use crate::kinds::{KindName, kind_named};
use crate::table::{LINKS, MEND, NORMALIZE, PARSE, RESOLVE};
use fluent_uri::normalize::RuleSet;

/// A kind of base, by its name on the command line.
#[derive(Clone, Copy)]
pub enum BaseName {
    /// `uri`, whose references are those of `uri-ref`
    Uri,
    /// `iri`, whose references are those of `iri-ref`
    Iri,
}

/// A command of the program.
#[derive(Clone, Copy)]
pub enum Command<'a> {
    /// `parse KIND TEXT`
    Parse(KindName, &'a str),
    /// `normalize KIND TEXT`, by these rules of schemes (`--scheme-rules`)
    Normalize(KindName, &'a str, RuleSet),
    /// `mend KIND TEXT`
    Mend(KindName, &'a str),
    /// `resolve uri|iri BASE REF`
    Resolve(BaseName, &'a str, &'a str),
    /// `links BASE REF...`: the base, the first reference and the others, by these rules of schemes
    /// (`--scheme-rules`)
    Links(&'a str, &'a str, &'a [String], RuleSet),
}

impl<'a> Command<'a> {
    /// Returns the command that the words make, or `None` exactly if they make none.
    pub fn from_words(words: &'a [String]) -> Option<Command<'a>>
        ensures { MatchOption result (¬ IsCommand (texts words.now))
            (λ c. texts words.now ≡ words_of (contract_command c)) }
    {
        if let Some(command) = text_command_from_words(words) {
            return Some(command);
        }
        if let Some(command) = resolve_from_words(words) {
            return Some(command);
        }
        if let Some(command) = links_from_words(words) {
            return Some(command);
        }
        if let Some(command) = ruled_normalize_from_words(words) {
            return Some(command);
        }
        ruled_links_from_words(words)
    }
}

/// Returns the command `parse`, `normalize` or `mend` of the words, if they make one.
fn text_command_from_words(words: &[String]) -> Option<Command<'_>>
    ensures { MatchOption result (¬ AreWordsOfTextCommand (texts words.now))
        (λ c. texts words.now ≡ words_of (contract_command c)) }
{
    match words {
        [command, kind, text] => {
            let kind = kind_named(kind.as_str())?;
            text_command(command.as_str(), kind, text.as_str())
        }
        _ => None,
    }
}

/// Returns the command of this name on a text of the kind, if there is one.
fn text_command<'a>(name: &str, kind: KindName, text: &'a str) -> Option<Command<'a>>
    ensures { MatchOption result (¬ IsNameOfTextCommand name.now)
        (λ c. name.now ∷ word_of_kind kind ∷ text.now ∷ [] ≡ words_of (contract_command c)) }
{
    match name {
        _ if name == PARSE.name => Some(Command::Parse(kind, text)),
        _ if name == NORMALIZE.name => {
            Some(Command::Normalize(kind, text, RuleSet::DefaultPorts))
        }
        _ if name == MEND.name => Some(Command::Mend(kind, text)),
        _ => None,
    }
}

/// Returns the command `resolve` of the words, if they make it.
fn resolve_from_words(words: &[String]) -> Option<Command<'_>>
    ensures { MatchOption result (¬ AreWordsOfResolve (texts words.now))
        (λ c. texts words.now ≡ words_of (contract_command c)) }
{
    match words {
        [command, kind, base, reference] if command.as_str() == RESOLVE.name => {
            let kind = base_named(kind.as_str())?;
            Some(Command::Resolve(kind, base.as_str(), reference.as_str()))
        }
        _ => None,
    }
}

/// Returns the command `links` of the words, if they make it.
fn links_from_words(words: &[String]) -> Option<Command<'_>>
    ensures { MatchOption result (¬ AreWordsOfLinks (texts words.now))
        (λ c. texts words.now ≡ words_of (contract_command c)) }
{
    match words {
        [command, base, reference, others @ ..] if command.as_str() == LINKS.name => {
            let rules = RuleSet::DefaultPorts;
            Some(Command::Links(base.as_str(), reference.as_str(), others, rules))
        }
        _ => None,
    }
}

/// Returns the command `normalize` of the words after the option `--scheme-rules`, if they make it.
fn ruled_normalize_from_words(words: &[String]) -> Option<Command<'_>>
    ensures { MatchOption result (¬ AreWordsOfRuledNormalize (texts words.now))
        (λ c. texts words.now ≡ words_of (contract_command c)) }
{
    match words {
        [option, command, kind, text]
            if option.as_str() == "--scheme-rules" && command.as_str() == NORMALIZE.name => {
            let kind = kind_named(kind.as_str())?;
            Some(Command::Normalize(kind, text.as_str(), RuleSet::StandardRules))
        }
        _ => None,
    }
}

/// Returns the command `links` of the words after the option `--scheme-rules`, if they make it.
fn ruled_links_from_words(words: &[String]) -> Option<Command<'_>>
    ensures { MatchOption result (¬ AreWordsOfRuledLinks (texts words.now))
        (λ c. texts words.now ≡ words_of (contract_command c)) }
{
    match words {
        [option, command, base, reference, others @ ..]
            if option.as_str() == "--scheme-rules" && command.as_str() == LINKS.name => {
            let rules = RuleSet::StandardRules;
            Some(Command::Links(base.as_str(), reference.as_str(), others, rules))
        }
        _ => None,
    }
}

/// Returns the kind of base that a word of the command line names, if there is one.
fn base_named(word: &str) -> Option<BaseName>
    ensures { MatchOption result ((k : _) → word.now ≢ word_of_base k)
        (λ k. word.now ≡ word_of_base k) }
{
    match word {
        "uri" => Some(BaseName::Uri),
        "iri" => Some(BaseName::Iri),
        _ => None,
    }
}
