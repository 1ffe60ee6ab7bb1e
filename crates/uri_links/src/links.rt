//! A register of links (RFC 3986, sections 5.2 and 6.2). Two references are one link exactly if
//! their targets, each against its base, are equivalent under the register's rules.
ghost use Rattle.std.specs.Prelude.{◌≡◌, ◌≢◌, ◌↔◌, ◌≤◌, ◌∷◌, ◌++◌, ℕ, [], None, true, is_ok, length, map, option_map, slice_get, take, IfOk, IfErr, OnErr, OnOk, IsNone, All, bytes_eq, position};
ghost use Rattle.std.specs.List.{IsDistinct-prop};
ghost use Rattle.fluent_uri.specs.Components.{components};
ghost use Rattle.fluent_uri.specs.Grammar.{IsTextOf, uri};
ghost use Rattle.fluent_uri.specs.Normal.{normal_text};
ghost use Rattle.fluent_uri.specs.NormalTargets.{IsNormalFormOfTarget};
ghost use Rattle.fluent_uri.specs.Normalizers.{scheme_rules_of};
ghost use Rattle.fluent_uri.specs.Resolving.{IsErrorWithUnderflowAllowed};
ghost use Rattle.fluent_uri.specs.SchemeRules.{meaning_under};
ghost use Rattle.fluent_uri.specs.Target.{resolution_of};
ghost use Rattle.fluent_uri.specs.Uris.{uri_ref_text, uri_text};
ghost use Rattle.uri_links.specs.Outcomes.{outcome_of, outcomes_of, outcome_of_lookup};
ghost use Rattle.uri_links.specs.OutcomesInWords.{IdIsInRange, IsOutcome};
ghost use Rattle.uri_links.specs.Registered.{AreDistinct, AreNormal, AreUris};
ghost use Rattle.uri_links.specs.SearchTrees.{IsSearchTree, found_id, hash_of, search};
ghost use Rattle.uri_links.specs.declared.search_tree.SearchEnd.TheVariants.{Missing};

use crate::search_tree::{Node, SearchEnd, add_node, hash_of, search};
use fluent_uri::normalize::{Normalizer, SchemeRules};
use fluent_uri::resolve::{ResolveError, Resolver};
use fluent_uri::{Uri, UriRef, laws};
use std::alloc::{AllocError, Global};

/// What `Register::note` returns for a reference. An id is an index into the register, from 0.
///
/// Against `http://a/b`, the first `c` is `New(0)`. Then `./c` is `Known(0)`.
#[derive(Clone, Copy, Debug, PartialEq, Eq)]
pub enum Outcome {
    /// No registered target was equivalent: the normal form was registered with this id.
    New(usize),
    /// The target is equivalent to the registered one with this id.
    Known(usize),
    /// The reference has no target. The error is `BaseWithFragment` or
    /// `InvalidReferenceAgainstOpaqueBase`.
    Refused(ResolveError),
}

/// The normal forms of the targets of the references that were noted, in the order in which each
/// was first noted. No two are equivalent.
///
/// # Examples
///
/// Four references are noted against the base `http://x/a/b`, and two targets are registered:
///
/// | Reference | Outcome | Target at that id |
/// |---|---|---|
/// | `//X:80/` | `New(0)` | `http://x/` |
/// | `/` | `Known(0)` | `http://x/` |
/// | `c` | `New(1)` | `http://x/a/c` |
/// | `../a/%63` | `Known(1)` | `http://x/a/c` |
///
/// ```
/// let mut register = Register::new(alloc, Normalizer::new().scheme_rules_with(rules));
/// let outcomes = register.note_all(&base, references.as_slice())?;
/// ```
#[derive(Drop)]
pub struct Register<S: SchemeRules> {
    alloc: Global,
    normalizer: Normalizer<S>,
    targets: Vec<Uri<String>>,
    nodes: Vec<Node>,
    // Each text is a URI.
    pub ghost uris: { AreUris (map uri_text targets.items) },
    // Each is its own normal text.
    pub ghost normal: { AreNormal (S.rules_of (scheme_rules_of normalizer))
        (map uri_text targets.items) },
    // No two are equal.
    pub ghost distinct: { AreDistinct
        (map uri_text targets.items) } by { IsDistinct-prop bytes_eq (map uri_text targets.items) },
    // Each is found by its node.
    ghost tree: { IsSearchTree nodes.items (map uri_text targets.items) },
}

/// Returns the outcome `Refused` for an error, or `AllocError` if the error is `OutOfMemory`.
fn refused(error: ResolveError) -> Result<Outcome, AllocError>
    ensures outcome { IfOk result (λ outcome.
        (outcome ≡ Outcome.Refused error) × (error ≢ ResolveError.OutOfMemory)) }
    ensures memory { OnErr result (error ≡ ResolveError.OutOfMemory) }
{
    match error {
        ResolveError::OutOfMemory => Err(AllocError),
        refusal => Ok(Outcome::Refused(refusal)),
    }
}

/// Returns the text of a target in the register, which is a URI.
fn text_of(target: &Uri<String>) -> &str
    ensures text { result.now ≡ uri_text target.now }
    ensures uri { IsTextOf uri (uri_text target.now) }
{
    target.as_str()
}

impl<S: SchemeRules> Register<S> {
    ghost use Rattle.uri_links.specs.Registers.{target_rules, texts_of};

    /// Returns an empty register, which normalises targets under the normaliser's rules of schemes
    /// (RFC 3986, section 6.2.3).
    ///
    /// Path underflow is never an error, whatever the normaliser's setting. The register keeps
    /// `alloc` for later calls. This call allocates nothing.
    ///
    /// The new register's `len` is 0. If the rules are `StandardRules`, the register notes
    /// `http://a` and `http://a/` as one link.
    pub fn new(alloc: Global, normalizer: Normalizer<S>) -> Register<S>
        ensures empty { texts_of result ≡ [] }
        ensures rules { target_rules result ≡ S.rules_of (scheme_rules_of normalizer) }
    {
        Register {
            alloc,
            normalizer,
            targets: Vec::new(alloc),
            nodes: Vec::new(alloc),
        }
    }

    /// Returns the number of registered targets. Each id is less than it.
    ///
    /// After `c` and `./c` were noted against `http://a/b`, it is 1.
    pub fn len(&self) -> usize
        ensures { result ≡ length (texts_of self.now) }
    {
        self.targets.len()
    }

    /// Returns the registered target with this id, or `None` exactly if the id is not below `len`.
    ///
    /// After `//X:80/` was noted against `http://x/a/b`, the target with id 0 is `http://x/`.
    pub fn target(&self, id: usize) -> Option<Uri<&str>>
        ensures target { option_map uri_text result ≡ slice_get (texts_of self.now) id }
        ensures none { IsNone result ↔ (length (texts_of self.now) ≤ id) }
    {
        Some(self.targets.get(id)?.borrow())
    }

    /// Searches for the registered target with this text.
    fn search(&self, text: &str, hash: u64) -> SearchEnd
        requires { hash ≡ hash_of text.now }
        ensures search { result ≡ search self.now.nodes.items (texts_of self.now) text.now }
        ensures id { found_id result ≡ position (bytes_eq text.now) (texts_of self.now) }
    {
        search(self.nodes.as_slice(), self.targets.as_slice(), text, hash)
    }

    /// Registers a target as the child at which the search for its text ended, and returns its id.
    fn add(
        &mut self,
        target: Uri<String>,
        hash: u64,
        parent: usize,
        right: bool,
    ) -> Result<usize, AllocError>
        requires uri { IsTextOf uri (uri_text target) }
        requires hash { hash ≡ hash_of (uri_text target) }
        requires missing { search self.old.nodes.items (texts_of self.old) (uri_text target)
            ≡ Missing parent right }
        requires new { position (bytes_eq (uri_text target)) (texts_of self.old) ≡ None }
        requires normal { normal_text (meaning_under uri (target_rules self.old) (uri_text target))
            ≡ uri_text target }
        ensures id { IfOk result (λ id. id ≡ length (texts_of self.old)) }
        ensures added { OnOk result
            (texts_of self.new ≡ texts_of self.old ++ uri_text target ∷ []) }
        ensures kept { OnErr result (texts_of self.new ≡ texts_of self.old) }
        ensures rules { target_rules self.new ≡ target_rules self.old }
    {
        let id = self.len();
        self.targets.push(target)?;
        match add_node(&mut self.nodes, hash, parent, right) {
            Ok(()) => Ok(id),
            Err(error) => {
                let _taken_back = self.targets.pop();
                Err(error)
            }
        }
    }

    /// Returns the normal form of a reference's target against a base, whether or not its dot
    /// segments underflow.
    fn normal_target(
        &self,
        base: &Uri<&str>,
        reference: &UriRef<&str>,
    ) -> Result<Uri<String>, ResolveError>
        ensures target { IfOk result (λ target.
            IsNormalFormOfTarget uri (target_rules self.now)
            (uri_text base.now) (uri_ref_text reference.now) (uri_text target)) }
        ensures refusal { IfErr result
            (IsErrorWithUnderflowAllowed (components (uri_text base.now))
            (components (uri_ref_text reference.now))) }
    {
        let resolver = Resolver::with_base(*base);
        resolver.resolve_normalized(self.alloc, reference, &self.normalizer)
    }

    /// Returns the outcome for a normal target, and registers it if it is new.
    fn note_target(&mut self, target: Uri<String>) -> Result<Outcome, AllocError>
        requires { normal_text (meaning_under uri (target_rules self.old) (uri_text target))
            ≡ uri_text target }
        ensures noted { IfOk result (λ outcome.
            outcome_of_lookup (position (bytes_eq (uri_text target)) (texts_of self.old))
            (texts_of self.old)
            (uri_text target) ≡ (outcome, texts_of self.new)) }
        ensures kept { OnErr result (texts_of self.new ≡ texts_of self.old) }
        ensures rules { target_rules self.new ≡ target_rules self.old }
    {
        let text = text_of(&target);
        let hash = hash_of(text);
        match self.search(text, hash) {
            SearchEnd::Found(id) => Ok(Outcome::Known(id)),
            SearchEnd::Missing(parent, right) => {
                Ok(Outcome::New(self.add(target, hash, parent, right)?))
            }
        }
    }

    /// Resolves a reference against a base, and registers its target if it is new.
    ///
    /// - If a registered target is equivalent, the outcome is `Known`, with that target's id.
    /// - Otherwise the target's normal form is registered last, and the outcome is `New`.
    /// - If the reference has no target, the outcome is `Refused`, and nothing is registered.
    ///
    /// Against the base `foo:bar`, `//g` is `Refused(InvalidReferenceAgainstOpaqueBase)`. Then
    /// `foo:x` is `New(0)`.
    ///
    /// # Errors
    ///
    /// Returns an error only if allocation fails. The register is then unchanged. For a reference
    /// that has no target no memory is requested, so the outcome is `Refused` even without memory.
    pub fn note(
        &mut self,
        base: &Uri<&str>,
        reference: &UriRef<&str>,
    ) -> Result<Outcome, AllocError>
        ensures noted { IfOk result (λ outcome.
            outcome_of (target_rules self.old) (uri_text base.now) (texts_of self.old)
            (uri_ref_text reference.now) ≡ (outcome, texts_of self.new)) }
        // The same, by equality of meanings in place of a comparison.
        ensures meant { IfOk result
            (IsOutcome (target_rules self.old) (uri_text base.now) (texts_of self.old)
            (uri_ref_text reference.now)) }
        ensures kept { OnErr result (texts_of self.new ≡ texts_of self.old) }
        ensures rules { target_rules self.new ≡ target_rules self.old }
        // If allocation failed, the reference has a target.
        ensures refused { OnErr result (is_ok (resolution_of (components (uri_text base.now))
            (components (uri_ref_text reference.now))) ≡ true) }
    {
        laws::meanings_are_equal_if_their_parts_are();
        match self.normal_target(base, reference) {
            Ok(target) => self.note_target(target),
            Err(error) => refused(error),
        }
    }

    /// Notes each of the references against a base, in order, and returns their outcomes in that
    /// order.
    ///
    /// Against the base `http://x/a/b`, the references `c` and `../a/%63` are `New(0)` and
    /// `Known(0)`.
    ///
    /// # Errors
    ///
    /// Returns an error only if allocation fails. The register is then as after noting some prefix
    /// of the references.
    pub fn note_all(
        &mut self,
        base: &Uri<&str>,
        references: &[UriRef<&str>],
    ) -> Result<Vec<Outcome>, AllocError>
        ensures noted { IfOk result (λ outcomes.
            outcomes_of (target_rules self.old) (uri_text base.now) (texts_of self.old)
            (map uri_ref_text references.now) ≡ (outcomes.items, texts_of self.new)) }
        // Each id that is returned has a registered target.
        ensures ids { IfOk result (λ outcomes.
            All (IdIsInRange (texts_of self.new)) outcomes.items) }
        ensures prefix { OnErr result ((n : ℕ) × (texts_of self.new ≡
            (outcomes_of (target_rules self.old) (uri_text base.now) (texts_of self.old)
            (map uri_ref_text (take n references.now))).1)) }
        ensures rules { target_rules self.new ≡ target_rules self.old }
    {
        let mut outcomes = Vec::with_capacity(self.alloc, references.len())?;
        for reference in references {
            let outcome = self.note(base, reference)?;
            outcomes.push(outcome)?;
        }
        Ok(outcomes)
    }
}
