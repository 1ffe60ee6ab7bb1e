//! The texts that were met.
ghost use Rattle.std.specs.Prelude.{◌≡◌, false, true, bytes_eq, if◌then◌else◌, ℕ, List, OnOk, string_bytes};
ghost use Rattle.std.specs.HashSet.{contains_text};

use std::alloc::{AllocError, Global};
use std::collections::HashSet;
use std::hash::RandomState;

/// A set of the texts that were met in earlier lines of an input.
#[derive(Drop)]
pub(crate) struct MetTexts {
    /// The texts that were met.
    texts: HashSet<String, RandomState>,
}

impl MetTexts {
    /// Returns an empty set of texts that were met, which hashes with these keys.
    pub(crate) fn new(alloc: Global, hasher: RandomState) -> MetTexts
        ensures { (text : List ℕ) → contains_text result.texts text ≡ false }
    {
        MetTexts {
            texts: HashSet::with_hasher(alloc, hasher),
        }
    }

    /// Returns whether a text was met in an earlier line.
    pub(crate) fn contains(&self, text: &str) -> bool
        ensures { result ≡ contains_text self.now.texts text.now }
    {
        self.texts.contains(text)
    }

    /// Adds a text to those that were met.
    ///
    /// # Errors
    ///
    /// Only if allocation fails.
    pub(crate) fn note(&mut self, text: String) -> Result<(), AllocError>
        ensures { OnOk result ((other : List ℕ) → contains_text self.new.texts other
            ≡ (if bytes_eq (string_bytes text) other then true
            else contains_text self.old.texts other)) }
    {
        self.texts.insert(text)?;
        Ok(())
    }
}
