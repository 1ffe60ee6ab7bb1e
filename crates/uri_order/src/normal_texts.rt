//! Normal texts compared and hashed (RFC 3986, sections 6.2.2 and 6.2.3). The text of a value that
//! is found to be its own normal text is read as it is; any other normal text is read from its end,
//! block by block.
ghost use Rattle.std.specs.Prelude.{◌≡◌, ◌↔◌, IfSome, true, fold};
ghost use Rattle.std.specs.Cmp.Lexicographic.{slice_cmp};
ghost use Rattle.std.specs.Ordering.{nat_cmp};
ghost use Rattle.uri_parts.specs.Prelude.{IsTextOf, core_text};
ghost use Rattle.uri_order.specs.HashedTexts.{hashed_text};
ghost use Rattle.uri_order.specs.NormalForms.{AreEquivalent, normal_form};

use crate::hashing::{hash_back, hash_bytes};
use crate::in_step::cmp_long;
use std::cmp::Ordering;
use std::hash::Hasher;
use uri_ops::normalize::ruled_parts::ruled_authority;
use uri_ops::normalize::unchanged::is_found_normal;
use uri_ops::read_back::BLOCK;
use uri_ops::read_back::literal_back::LiteralBack;
use uri_ops::read_back::normal_authority::ipv6_host_of;
use uri_ops::read_back::normal_block::put_normal_text;
use uri_ops::read_back::ruled_back::{has_normal_text, ruled_back};
use uri_ops::scheme_rules::SchemeRules;
use uri_parts::core_text::Core;
use uri_parts::kind::Kind;

/// Returns whether two values have the same text.
#[inline(always)]
fn have_same_text<K: Kind>(one: Core<K, &str>, other: Core<K, &str>) -> bool
    ensures same { (result ≡ true) ↔ (core_text one.entry ≡ core_text other.entry) }
    ensures one { IsTextOf K.kind (core_text one.entry) }
    ensures other { IsTextOf K.kind (core_text other.entry) }
{
    one.as_str() == other.as_str()
}

/// Returns the text of a value if it is found to be its own normal form. It misses a few such
/// values.
fn unchanged_text<'a, K: Kind, S: SchemeRules>(core: Core<K, &'a str>, rules: &S) -> Option<&'a str>
    ensures { IfSome result (λ text.
        text.now ≡ normal_form K.kind (S.rules_of rules.now) (core_text core.entry)) }
{
    let text = core.as_str();
    if !is_found_normal(core, rules) {
        return None;
    }
    Some(text)
}

/// Returns the order of the normal text of a value, which it reads from its end in blocks, and
/// another text.
#[cold]
#[inline(never)]
fn cmp_long_text<K: Kind, S: SchemeRules>(core: Core<K, &str>, rules: &S, text: &[u8]) -> Ordering
    ensures { result ≡ slice_cmp nat_cmp
        (normal_form K.kind (S.rules_of rules.now) (core_text core.entry)) text.now }
{
    let authority = ruled_authority(core, rules);
    let (host, end) = ipv6_host_of(authority);
    let normal = ruled_back(core, authority, rules, &host[..end]);
    cmp_long(normal, LiteralBack::copied(text))
}

/// Returns the order of the normal text of a value and another text, byte by byte.
fn cmp_text<K: Kind, S: SchemeRules>(core: Core<K, &str>, rules: &S, text: &[u8]) -> Ordering
    ensures { result ≡ slice_cmp nat_cmp
        (normal_form K.kind (S.rules_of rules.now) (core_text core.entry)) text.now }
{
    let mut block = [0; BLOCK];
    let start = put_normal_text(core, rules, &mut block);
    if start == 0 {
        return cmp_long_text(core, rules, text);
    }
    block[start..].cmp(text)
}

/// Returns the order of the normal texts of two values, which it reads from their ends in blocks.
#[cold]
#[inline(never)]
fn cmp_long_texts<K: Kind, S: SchemeRules>(
    one: Core<K, &str>,
    other: Core<K, &str>,
    rules: &S,
) -> Ordering
    ensures { let rules = S.rules_of rules.now in
        result ≡ slice_cmp nat_cmp
        (normal_form K.kind rules (core_text one.entry))
        (normal_form K.kind rules (core_text other.entry)) }
{
    let authority = ruled_authority(one, rules);
    let (host, end) = ipv6_host_of(authority);
    let text = ruled_back(one, authority, rules, &host[..end]);
    let authority = ruled_authority(other, rules);
    let (host, end) = ipv6_host_of(authority);
    cmp_long(text, ruled_back(other, authority, rules, &host[..end]))
}

/// Returns the order of the normal texts of two values, of which neither is found to be its own.
fn cmp_back<K: Kind, S: SchemeRules>(
    one: Core<K, &str>,
    other: Core<K, &str>,
    rules: &S,
) -> Ordering
    ensures { let rules = S.rules_of rules.now in
        result ≡ slice_cmp nat_cmp
        (normal_form K.kind rules (core_text one.entry))
        (normal_form K.kind rules (core_text other.entry)) }
{
    let mut block = [0; BLOCK];
    let start = put_normal_text(one, rules, &mut block);
    if start == 0 {
        return cmp_long_texts(one, other, rules);
    }
    cmp_text(other, rules, &block[start..]).reverse()
}

/// Returns whether the normal texts of two values are equal.
fn have_equal_texts<K: Kind, S: SchemeRules>(
    one: Core<K, &str>,
    other: Core<K, &str>,
    rules: &S,
) -> bool
    ensures { let rules = S.rules_of rules.now in
        (result ≡ true) ↔ (normal_form K.kind rules (core_text one.entry)
        ≡ normal_form K.kind rules (core_text other.entry)) }
{
    match (unchanged_text(one, rules), unchanged_text(other, rules)) {
        (Some(first), Some(second)) => first == second,
        (Some(text), None) => has_normal_text(other, rules, text.as_bytes()),
        (None, Some(text)) => has_normal_text(one, rules, text.as_bytes()),
        (None, None) => cmp_back(one, other, rules).is_eq(),
    }
}

/// Returns whether two values are equivalent: their normal texts are equal.
pub(crate) fn are_equivalent<K: Kind, S: SchemeRules>(
    one: Core<K, &str>,
    other: Core<K, &str>,
    rules: &S,
) -> bool
    ensures text { let rules = S.rules_of rules.now in
        (result ≡ true) ↔ (normal_form K.kind rules (core_text one.entry)
        ≡ normal_form K.kind rules (core_text other.entry)) }
    ensures meaning { let rules = S.rules_of rules.now in
        (result ≡ true)
        ↔ AreEquivalent K.kind rules (core_text one.entry) (core_text other.entry) }
{
    if have_same_text(one, other) {
        return true;
    }
    have_equal_texts(one, other, rules)
}

/// Returns the order of the normal texts of two values, byte by byte.
fn cmp_texts<K: Kind, S: SchemeRules>(
    one: Core<K, &str>,
    other: Core<K, &str>,
    rules: &S,
) -> Ordering
    ensures { let rules = S.rules_of rules.now in
        result ≡ slice_cmp nat_cmp
        (normal_form K.kind rules (core_text one.entry))
        (normal_form K.kind rules (core_text other.entry)) }
{
    match (unchanged_text(one, rules), unchanged_text(other, rules)) {
        (Some(first), Some(second)) => first.cmp(second),
        (Some(text), None) => cmp_text(other, rules, text.as_bytes()).reverse(),
        (None, Some(text)) => cmp_text(one, rules, text.as_bytes()),
        (None, None) => cmp_back(one, other, rules),
    }
}

/// Returns the order of the normal texts of two values, byte by byte.
pub(crate) fn cmp_normal<K: Kind, S: SchemeRules>(
    one: Core<K, &str>,
    other: Core<K, &str>,
    rules: &S,
) -> Ordering
    ensures order { let rules = S.rules_of rules.now in
        result ≡ slice_cmp nat_cmp
        (normal_form K.kind rules (core_text one.entry))
        (normal_form K.kind rules (core_text other.entry)) }
    ensures equal { let rules = S.rules_of rules.now in
        (result ≡ Ordering.Equal)
        ↔ AreEquivalent K.kind rules (core_text one.entry) (core_text other.entry) }
{
    if have_same_text(one, other) {
        return Ordering::Equal;
    }
    cmp_texts(one, other, rules)
}

/// Writes the normal text of a value into a hasher.
pub(crate) fn hash_normal<K: Kind, S: SchemeRules, H: Hasher>(
    core: Core<K, &str>,
    rules: &S,
    state: &mut H,
)
    ensures { let rules = S.rules_of rules.now in
        state.new ≡ fold H.write state.old
        (hashed_text (normal_form K.kind rules (core_text core.entry))) }
{
    if let Some(text) = unchanged_text(core, rules) {
        hash_bytes(text.as_bytes(), state);
        return;
    }
    let mut block = [0; BLOCK];
    let start = put_normal_text(core, rules, &mut block);
    if start > 0 {
        hash_bytes(&block[start..], state);
        return;
    }
    let authority = ruled_authority(core, rules);
    let (host, end) = ipv6_host_of(authority);
    let mut back = ruled_back(core, authority, rules, &host[..end]);
    hash_back(&mut back, state);
}
