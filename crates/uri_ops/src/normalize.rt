//! Normalising references (RFC 3986, sections 6.2.2 and 6.2.3; RFC 3987, section 5.3.2).
ghost use Rattle.std.specs.Prelude.{◌≡◌, IfOk, IfErr, true, false, string_bytes, IsUtf8};
ghost use Rattle.uri_parts.specs.Prelude.{ArePackedPositionsOf, IsOfKind, core_text};
ghost use Rattle.uri_ops.specs.ComponentSets.{HasComponentSets};
ghost use Rattle.uri_ops.specs.Normalizers.{HasNormalText, IsNormalForm, normalizer_allows_underflow, scheme_rules_of, text_underflows};
ghost use Rattle.uri_ops.specs.SchemeRules.{default_rules};
ghost use Rattle.uri_ops.specs.declared.normalize.NormalizeError.TheVariants.{PathUnderflow};

pub(crate) mod decode_unreserved;
pub(crate) mod decoded_paths;
#[doc(hidden)]
pub mod formatting;
pub(crate) mod literal_runs;
pub(crate) mod normal_authority;
#[doc(hidden)]
pub mod normal_text;
pub(crate) mod normalized;
pub(crate) mod octet_runs;
pub(crate) mod octets;
pub(crate) mod room;
pub(crate) mod ruled_copies;
#[doc(hidden)]
pub mod ruled_parts;
pub(crate) mod short_components;
#[doc(hidden)]
pub mod unchanged;
pub(crate) mod unchanged_octets;

use crate::normalize::normal_text::written_normal_text;
use crate::normalize::normalized::Normalized;
use crate::normalize::ruled_copies::ruled_copy;
use crate::normalize::ruled_parts::{has_default_host, has_root_path};
use crate::normalize::unchanged::is_found_normal_by_ports;
use crate::scheme_rules::{DefaultPorts, SchemeRules, WithPorts};
use crate::traits::RiMaybeRef;
use std::alloc::{AllocError, Global};
use thiserror::Error;
use uri_parts::core_text::Core;
use uri_parts::kind::Kind;
use uri_parts::packed_positions::PackedPositions;

/// Why a value was not normalised.
///
/// `http://a/../b` is rejected as `PathUnderflow` where underflow is not allowed.
#[derive(Clone, Copy, Debug, PartialEq, Eq, Error)]
pub enum NormalizeError {
    /// A double dot had no segment left to remove (RFC 3986, section 5.2.4), and this is not
    /// allowed.
    #[error("underflow occurred in path resolution")]
    PathUnderflow,
    /// Allocation failed.
    #[error("out of memory")]
    OutOfMemory,
}

impl From<AllocError> for NormalizeError {
    ghost use Rattle.uri_ops.specs.declared.normalize.NormalizeError.TheVariants.{OutOfMemory};

    ghost from_gives = { λ _ error. error ≡ OutOfMemory };

    /// Returns the error `OutOfMemory` of normalising for a failed allocation.
    fn from(_: AllocError) -> NormalizeError {
        NormalizeError::OutOfMemory
    }
}

/// What normalises values, by its settings: whether dot segments may underflow, and the rules of
/// schemes, such as their default ports.
///
/// # Examples
///
/// `Normalizer::new().normalize(alloc, &uri)` returns `http://example.com/` for
/// `HTTP://Example.com:80/`.
///
/// ```
/// let normalizer = Normalizer::new();
/// normalizer.normalize(alloc, uri)
/// ```
#[derive(Drop)]
pub struct Normalizer<S> {
    allow_path_underflow: bool,
    pub(crate) rules: S,
}

/// Returns the normal text of a text of a kind. If that is the text itself, the result
/// is a copy.
pub(crate) fn normalize_core<K: Kind, S: SchemeRules>(
    alloc: Global,
    core: Core<K, &str>,
    rules: &S,
) -> Result<Normalized, AllocError>
    requires { HasComponentSets K.kind }
    ensures utf8 { IsUtf8 (core_text core.entry) }
    ensures text { IfOk result (λ made.
        HasNormalText K.kind (S.rules_of rules.now) (core_text core.entry)
        (string_bytes made.text)) }
    ensures at { IfOk result (λ made.
        ArePackedPositionsOf (string_bytes made.text) made.positions) }
    ensures underflow { IfOk result (λ made.
        made.underflows ≡ text_underflows (core_text core.entry)) }
{
    if is_found_normal_by_ports(core, rules) {
        let adds_root = has_root_path(core, rules);
        let drops_host = has_default_host(core, rules);
        if adds_root || drops_host {
            return ruled_copy(alloc, core, rules, drops_host, adds_root);
        }
        return Ok(Normalized {
            text: String::from_str(alloc, core.as_str())?,
            positions: core.packed_positions(),
            underflows: false,
        });
    }
    written_normal_text(alloc, core, rules)
}

/// Returns the normal text of a text of a kind whose components are at these positions. If the text
/// is found unchanged, it is kept.
pub(crate) fn normalize_string<K: Kind, S: SchemeRules>(
    alloc: Global,
    text: String,
    positions: PackedPositions,
    rules: &S,
) -> Result<Normalized, AllocError>
    requires sets { HasComponentSets K.kind }
    requires of_kind { IsOfKind K.kind (string_bytes text) }
    requires at { ArePackedPositionsOf (string_bytes text) positions }
    ensures utf8 { IsUtf8 (string_bytes text) }
    ensures text { IfOk result (λ made.
        HasNormalText K.kind (S.rules_of rules.now) (string_bytes text)
        (string_bytes made.text)) }
    ensures at { IfOk result (λ made.
        ArePackedPositionsOf (string_bytes made.text) made.positions) }
{
    let core = Core::<K, &str>::new(text.as_str(), positions);
    if is_found_normal_by_ports(core, rules) {
        let adds_root = has_root_path(core, rules);
        let drops_host = has_default_host(core, rules);
        if adds_root || drops_host {
            return ruled_copy(alloc, core, rules, drops_host, adds_root);
        }
        return Ok(Normalized {
            text,
            positions,
            underflows: false,
        });
    }
    written_normal_text(alloc, core, rules)
}

impl Normalizer<DefaultPorts> {
    /// Returns a normaliser with the default ports of `Scheme::default_port` and no other rules of
    /// schemes, where dot segments may underflow.
    ///
    /// It normalises `http://a:80/../b` to `http://a/b`.
    pub fn new() -> Normalizer<DefaultPorts>
        ensures { normalizer_allows_underflow result ≡ true }
    {
        Normalizer {
            allow_path_underflow: true,
            rules: DefaultPorts,
        }
    }
}

impl Default for Normalizer<DefaultPorts> {
    ghost is_default = { λ normalizer. normalizer_allows_underflow normalizer ≡ true };

    /// Returns the normaliser that `Normalizer::new` returns.
    fn default() -> Self {
        Normalizer::new()
    }
}

impl<S: SchemeRules> Normalizer<S> {
    /// Returns the normaliser with dot segments allowed to underflow, or not. If they may, `/..` is
    /// removed where no segment is before it (RFC 3986, section 5.2.4); else it is an error.
    ///
    /// # Examples
    ///
    /// `Normalizer::new().allow_path_underflow(false)` rejects `http://a/../b`.
    ///
    /// ```
    /// let normalizer = Normalizer::new().allow_path_underflow(false);
    /// normalizer.normalize(alloc, uri)
    /// ```
    pub fn allow_path_underflow(self, value: bool) -> Normalizer<S>
        ensures allows { normalizer_allows_underflow result ≡ value }
        ensures rules { scheme_rules_of result ≡ scheme_rules_of self }
    {
        Normalizer {
            allow_path_underflow: value,
            rules: self.rules,
        }
    }

    /// Returns the normaliser with other rules of schemes (RFC 3986, section 6.2.3).
    ///
    /// # Examples
    ///
    /// With `StandardRules`, `HTTP://Example.com:80` is normalised to `http://example.com/`.
    ///
    /// ```
    /// let normalizer = Normalizer::new().scheme_rules_with(StandardRules);
    /// normalizer.normalize(alloc, uri)
    /// ```
    pub fn scheme_rules_with<T: SchemeRules>(self, rules: T) -> Normalizer<T>
        ensures allows { normalizer_allows_underflow result ≡ normalizer_allows_underflow self }
        ensures rules { scheme_rules_of result ≡ rules }
    {
        Normalizer {
            allow_path_underflow: self.allow_path_underflow,
            rules,
        }
    }

    /// Returns the normaliser with the default ports of other rules, and its own rules beside them
    /// (RFC 3986, section 6.2.3).
    ///
    /// # Examples
    ///
    /// If the ports return 4673 for every scheme, `foo://localhost:4673` is normalised to
    /// `foo://localhost`.
    ///
    /// ```
    /// let normalizer = Normalizer::new().default_port_with(ports);
    /// normalizer.normalize(alloc, uri)
    /// ```
    pub fn default_port_with<P: SchemeRules>(self, ports: P) -> Normalizer<WithPorts<P, S>>
        ensures allows { normalizer_allows_underflow result ≡ normalizer_allows_underflow self }
        ensures rules { ⟦<WithPorts<P, S> as SchemeRules>⟧.rules_of (scheme_rules_of result)
            ≡ record (S.rules_of (scheme_rules_of self)) { ports = (P.rules_of ports).ports } }
    {
        let allow_path_underflow = self.allow_path_underflow;
        let rules = WithPorts {
            ports,
            rules: self.rules,
        };
        Normalizer {
            allow_path_underflow,
            rules,
        }
    }

    /// Returns the normal form of a value (RFC 3986, sections 6.2.2 and 6.2.3). The scheme and the
    /// host are in lower case. Each octet that encodes a decodable character is decoded, and every
    /// other octet has upper-case digits. An empty or default port is left out. If there is a
    /// scheme, a path that begins with `/` loses its dot segments. An empty path after an authority
    /// becomes `/`, if the rules of its scheme say so. An authority that is `localhost` becomes
    /// empty, if that is the default host of its scheme. In an IRI the formatting characters of
    /// bidirectional text, U+200E, U+200F and U+202A to U+202E, become octets, whether they were
    /// octets or characters (RFC 3987, section 4.1). Two values of a kind have the same normal form
    /// exactly if they are equivalent under the rules.
    ///
    /// With `StandardRules`:
    ///
    /// | Text | Normal form |
    /// |---|---|
    /// | `HTTP://Example.com:80` | `http://example.com/` |
    /// | `wss://h?q` | `wss://h/?q` |
    /// | `FILE://LocalHost/a` | `file:///a` |
    /// | `file://u@localhost/a`, `file:/a`, `http:`, `//h` | the same |
    ///
    /// # Errors
    ///
    /// `PathUnderflow` if underflow is not allowed, and under a scheme a double dot of a path that
    /// begins with `/` has nothing left to remove; `OutOfMemory` if allocation fails.
    ///
    /// # Examples
    ///
    /// `eXAMPLE://a/./b/../b/%63/%7bfoo%7d` is normalised to `example://a/b/c/%7Bfoo%7D`.
    ///
    /// ```
    /// let normalizer = Normalizer::new();
    /// normalizer.normalize(alloc, uri)
    /// ```
    pub fn normalize<R: RiMaybeRef>(
        &self,
        alloc: Global,
        value: &R,
    ) -> Result<R::Owned, NormalizeError>
        ensures normal { IfOk result (λ normal.
            IsNormalForm R.kind (S.rules_of (scheme_rules_of self.now)) (R.text value.now)
            (R.owned_text normal)) }
        ensures allowed { IfOk result (λ _.
            normalizer_allows_underflow self.now ≡ false
            → text_underflows (R.text value.now) ≡ false) }
        ensures underflow { IfErr result (λ error.
            error ≡ PathUnderflow
            → (normalizer_allows_underflow self.now ≡ false)
            × (text_underflows (R.text value.now) ≡ true)) }
    {
        let made = normalize_core(alloc, value.core(), &self.rules)?;
        if made.underflows && !self.allow_path_underflow {
            return Err(NormalizeError::PathUnderflow);
        }
        Ok(R::make_owned(made.text, made.positions))
    }
}

/// Returns the normal form of a value under the rules of `DefaultPorts`, where dot segments may
/// underflow.
#[doc(hidden)]
pub fn normalize_with_defaults<R: RiMaybeRef>(
    alloc: Global,
    value: &R,
) -> Result<R::Owned, AllocError>
    ensures { IfOk result (λ normal.
        IsNormalForm R.kind default_rules (R.text value.now) (R.owned_text normal)) }
{
    let made = normalize_core(alloc, value.core(), &DefaultPorts)?;
    Ok(R::make_owned(made.text, made.positions))
}
