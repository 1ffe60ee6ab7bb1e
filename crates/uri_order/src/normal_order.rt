//! The order of normal forms, without making them (RFC 3986, sections 6.2.2 and 6.2.3).
ghost use Rattle.std.specs.Prelude.{◌≡◌, ◌↔◌, ℕ, List, true, fold};
ghost use Rattle.std.specs.Cmp.Lexicographic.{slice_cmp};
ghost use Rattle.std.specs.Ordering.{nat_cmp};
ghost use Rattle.fluent_uri.specs.Prelude.{reference_text};
ghost use Rattle.uri_order.specs.HashedTexts.{hashed_text};
ghost use Rattle.uri_order.specs.NormalForms.{AreEquivalent, normal_form};

use crate::normal_texts::{are_equivalent, cmp_normal, hash_normal};
use fluent_uri::{Reference, RiMaybeRef};
use std::cmp::Ordering;
use std::convert::AsStr;
use std::hash::Hasher;
use uri_ops::normalize::unchanged::is_normal;
use uri_ops::scheme_rules::{DefaultPorts, SchemeRules, WithPorts};
use uri_parts::kind::Kind;

/// Compares values by their normal forms (RFC 3986, sections 6.2.2 and 6.2.3), which it does not
/// make: no call asks for memory. Its setting is the rules of schemes, as a `Normalizer` has them.
///
/// The normal forms are those of a `Normalizer` with the same rules that allows underflow. Time
/// grows with the lengths of the two texts.
///
/// # Examples
///
/// `NormalOrder::new().is_equivalent(&one, &other)` returns `true` for `HTTP://a:80/%7E` and
/// `http://a/~`. With `StandardRules` it also returns `true` for `http://a` and `http://a/`.
#[derive(Drop)]
pub struct NormalOrder<S> {
    rules: S,
}

impl NormalOrder<DefaultPorts> {
    /// Returns the order of normal forms under the default ports of `Scheme::default_port` and no
    /// other rules of schemes.
    ///
    /// In it `http://a:80` and `http://a` are equal.
    pub fn new() -> NormalOrder<DefaultPorts> {
        NormalOrder {
            rules: DefaultPorts,
        }
    }
}

impl<S: SchemeRules> NormalOrder<S> {
    ghost use Rattle.uri_order.specs.NormalOrders.{scheme_rules_of};

    /// Returns the order of normal forms under other rules of schemes (RFC 3986, section 6.2.3).
    ///
    /// With `StandardRules`, `http://a:80` and `http://a/` are equal, and so are
    /// `file://localhost/a` and `file:///a`.
    pub fn scheme_rules_with<T: SchemeRules>(self, rules: T) -> NormalOrder<T>
        ensures { scheme_rules_of result ≡ rules }
    {
        NormalOrder { rules }
    }

    /// Returns the order of normal forms under the default ports of other rules, and its own rules
    /// beside them (RFC 3986, section 6.2.3).
    ///
    /// If the ports return 4673 for every scheme, `foo://a:4673` and `foo://a` are equal.
    pub fn default_port_with<P: SchemeRules>(self, ports: P) -> NormalOrder<WithPorts<P, S>>
        ensures { ⟦<WithPorts<P, S> as SchemeRules>⟧.rules_of (scheme_rules_of result)
            ≡ record (S.rules_of (scheme_rules_of self)) { ports = (P.rules_of ports).ports } }
    {
        let rules = WithPorts {
            ports,
            rules: self.rules,
        };
        NormalOrder { rules }
    }

    /// Returns whether two values have the same normal form, and so are equivalent under the rules
    /// (RFC 3986, sections 6.2.2 and 6.2.3).
    ///
    /// `http://a/%7e` and `HTTP://a:80/./~` are equivalent, and `http://a/b` and `http://a/b/` are
    /// not. Under `StandardRules`, `http://a` and `HTTP://a:80/` are equivalent, and `foo://a` and
    /// `foo://a/` are not.
    pub fn is_equivalent<K: Kind, T: AsStr, U: AsStr>(
        &self,
        one: &Reference<K, T>,
        other: &Reference<K, U>,
    ) -> bool
        ensures text { let rules = S.rules_of (scheme_rules_of self.now) in
            (result ≡ true) ↔ (normal_form K.kind rules (reference_text one.now)
            ≡ normal_form K.kind rules (reference_text other.now)) }
        ensures meaning { (result ≡ true)
            ↔ AreEquivalent K.kind (S.rules_of (scheme_rules_of self.now))
            (reference_text one.now) (reference_text other.now) }
    {
        are_equivalent(one.core(), other.core(), &self.rules)
    }

    /// Returns whether a value is its own normal form, so that normalising it changes nothing.
    ///
    /// `http://a/~` is, and `http://a:80/~`, `http://A/~` and `http://a/%7E` are not. Under
    /// `StandardRules`, `http://a` and `file://localhost/` are not.
    pub fn is_normal<K: Kind, T: AsStr>(&self, value: &Reference<K, T>) -> bool
        ensures { (result ≡ true)
            ↔ (normal_form K.kind (S.rules_of (scheme_rules_of self.now)) (reference_text value.now)
            ≡ reference_text value.now) }
    {
        is_normal(value.core(), &self.rules)
    }

    /// Returns the order of the normal forms of two values, byte by byte.
    ///
    /// Equivalent values are `Equal`. `HTTP://a:80/%7E` is `Less` than `http://b`, since its normal
    /// form is `http://a/~`, and `http://a/b` is `Greater` than `http://a/c/../a`. Under
    /// `StandardRules`, `http://a?b` is `Less` than `http://a/~`, since its normal form is
    /// `http://a/?b`.
    pub fn cmp<K: Kind, T: AsStr, U: AsStr>(
        &self,
        one: &Reference<K, T>,
        other: &Reference<K, U>,
    ) -> Ordering
        ensures order { let rules = S.rules_of (scheme_rules_of self.now) in
            result ≡ slice_cmp nat_cmp (normal_form K.kind rules (reference_text one.now))
            (normal_form K.kind rules (reference_text other.now)) }
        ensures equal { (result ≡ Ordering.Equal)
            ↔ AreEquivalent K.kind (S.rules_of (scheme_rules_of self.now))
            (reference_text one.now) (reference_text other.now) }
    {
        cmp_normal(one.core(), other.core(), &self.rules)
    }

    /// Hashes the normal form of a value, so that equivalent values have equal hashes. A normal
    /// form of fewer than 1,024 bytes is hashed as `str` is: as one run of bytes, and then 255.
    /// While 1,024 bytes or more are left of a longer one, the last 1,024 are hashed first.
    ///
    /// The hashes of `http://a/~` and `HTTP://a:80/%7E` are equal. Under `StandardRules`, those of
    /// `http://a` and `HTTP://a:80/` are equal.
    pub fn hash<K: Kind, T: AsStr, H: Hasher>(&self, value: &Reference<K, T>, state: &mut H)
        ensures text { state.new ≡ fold H.write state.old (hashed_text
            (normal_form K.kind (S.rules_of (scheme_rules_of self.now))
            (reference_text value.now))) }
        ensures same { let rules = S.rules_of (scheme_rules_of self.now) in (other : List ℕ)
            → AreEquivalent K.kind rules (reference_text value.now) other
            → state.new ≡ fold H.write state.old
            (hashed_text (normal_form K.kind rules other)) }
    {
        hash_normal(value.core(), &self.rules, state);
    }
}
