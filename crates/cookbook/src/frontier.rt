//! The URIs that were met, by what they mean.
ghost use Rattle.std.specs.Prelude.{◌≡◌, ◌≢◌, ◌↔◌, ◌++◌, true, false, not, is_some, bytes_eq};
ghost use Rattle.std.specs.Prelude.{codes, if◌then◌else◌, List, ℕ, [], IfErr, IfOk, IfSome};
ghost use Rattle.std.specs.Prelude.{IsOkUnless, OnErr, OnOk};
ghost use Rattle.std.specs.Io.KnownBytes.{Appends};
ghost use Rattle.std.specs.Option.{option_map_or};
ghost use Rattle.fluent_uri.specs.Prelude.{IsTextOf, default_rules, meaning_under, refusal, uri};
ghost use Rattle.fluent_uri.specs.Prelude.{uri_text};
ghost use Rattle.cookbook.specs.Frontiers.{has_met, normal_of};

use crate::normal::normal_form;
use crate::refusal::Failure;
use fluent_uri::Uri;
use std::alloc::Global;
use std::collections::BTreeSet;
use std::io::Write;

/// The normal forms of the URIs that were met.
#[derive(Drop)]
pub struct Frontier {
    seen: BTreeSet<String>,
}

impl Frontier {
    /// Returns a frontier that has met nothing.
    pub fn new(alloc: Global) -> Frontier
        ensures { (text : List ℕ) → has_met result text ≡ false }
    {
        Frontier {
            seen: BTreeSet::new(alloc),
        }
    }

    /// Adds a normal form, and returns whether it is new.
    #[tactic(auto, using(crate::proofs::Keys::contains_text_after_insertion))]
    fn insert(&mut self, alloc: Global, normal: &str) -> Result<bool, Failure>
        ensures new { IfOk result (λ new. new ≡ not (has_met self.old normal.now)) }
        ensures met { OnOk result ((other : List ℕ) → has_met self.new other
            ≡ (if bytes_eq normal.now other then true else has_met self.old other)) }
        ensures kept { OnErr result ((other : List ℕ) →
            has_met self.new other ≡ has_met self.old other) }
        ensures refused { IsOkUnless result Failure.OutOfMemory }
    {
        let key = String::from_str(alloc, normal)?;
        Ok(self.seen.insert(key)?)
    }

    /// Returns the normal form of a URI, if no equivalent one was met before. The URI is then met.
    ///
    /// # Errors
    ///
    /// `Text` exactly if the text is not a URI; `OutOfMemory` if allocation fails.
    pub fn note(&mut self, alloc: Global, text: &str) -> Result<Option<Uri<String>>, Failure>
        ensures new { IfOk result (λ answer.
            is_some answer ≡ not (has_met self.old (normal_of text.now))) }
        ensures normal { IfOk result (λ answer.
            IfSome answer (λ made. uri_text made ≡ normal_of text.now)) }
        ensures met { OnOk result ((other : List ℕ) → has_met self.new other
            ≡ (if bytes_eq (normal_of text.now) other then true else has_met self.old other)) }
        ensures meaning { OnOk result ((other : List ℕ) → IsTextOf uri other
            → (normal_of text.now ≡ normal_of other
            ↔ meaning_under uri default_rules text.now ≡ meaning_under uri default_rules other)) }
        ensures kept { OnErr result ((other : List ℕ) →
            has_met self.new other ≡ has_met self.old other) }
        ensures refused { IsOkUnless result
            (option_map_or Failure.Text (refusal uri text.now) Failure.OutOfMemory) }
    {
        let normal = normal_form(alloc, text)?;
        if self.insert(alloc, normal.as_str())? {
            Ok(Some(normal))
        } else {
            Ok(None)
        }
    }

    /// Writes the normal form of a URI and a newline, if no equivalent one was met before.
    ///
    /// # Errors
    ///
    /// As `note`: no URI is then met, and nothing is written. `OutputFailed` if the writer fails:
    /// the URI is then met all the same.
    pub fn print_new<O: Write>(
        &mut self,
        alloc: Global,
        text: &str,
        out: &mut O,
    ) -> Result<(), Failure>
        ensures printed { OnOk result (Appends (O.contents out.old) (O.contents out.new)
            (if has_met self.old (normal_of text.now) then []
            else normal_of text.now ++ codes "\n")) }
        ensures met { OnOk result ((other : List ℕ) → has_met self.new other
            ≡ (if bytes_eq (normal_of text.now) other then true else has_met self.old other)) }
        ensures refused { IfErr result (λ e. e ≢ Failure.OutputFailed
            → e ≡ option_map_or Failure.Text (refusal uri text.now) Failure.OutOfMemory) }
        ensures kept { IfErr result (λ e. e ≢ Failure.OutputFailed
            → (other : List ℕ) → has_met self.new other ≡ has_met self.old other) }
        ensures unwritten { IfErr result (λ e. e ≢ Failure.OutputFailed
            → O.contents out.new ≡ O.contents out.old) }
    {
        match self.note(alloc, text)? {
            Some(normal) => Ok(writeln!(out, "{normal}")?),
            None => Ok(()),
        }
    }
}
