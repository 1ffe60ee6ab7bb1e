//! The order and the hash of texts by their normal forms, without memory.
ghost use Rattle.std.specs.Prelude.{◌≡◌, ◌↔◌, ◌≤◌, ℕ, List, Ok, is_some, true, unwrap_or};
ghost use Rattle.std.specs.Result.{result_ok};
ghost use Rattle.fluent_uri_c.specs.Orders.{AreOneKey, byte_order, hash_of_bytes, key_hash, key_order, normal_key, order_number, order_of_keys, seeded};
ghost use Rattle.fluent_uri_c.specs.Results.{normal_result, normalize_result};

use crate::errors::Error;
use crate::fnv::Fnv;
use crate::numbered::rule_set;
use crate::texts::{is_possible_length, parsed};
use std::cmp::Ordering;
use std::hash::Hasher;
use uri_ops::scheme_rules::RuleSet;
use uri_order::NormalOrder;
use uri_order::hashing::hash_bytes;
use uri_parts::kind::{IriKind, IriRefKind, Kind, UriKind, UriRefKind};

/// Returns the order of bytes for tables, by the normal forms of texts of the kind.
fn order<K: Kind>(rules: RuleSet, one: &[u8], other: &[u8]) -> Ordering
    ensures { result ≡ order_of_keys (result_ok (normal_result rules K.kind one.now))
        (result_ok (normal_result rules K.kind other.now)) (byte_order one.now other.now) }
{
    match parsed::<K>(one) {
        Ok(first) => match parsed::<K>(other) {
            Ok(second) => NormalOrder::new()
                .scheme_rules_with(rules)
                .cmp(&first, &second),
            Err(_) => Ordering::Less,
        },
        Err(_) => match parsed::<K>(other) {
            Ok(_) => Ordering::Greater,
            Err(_) => one.cmp(other),
        },
    }
}

/// Returns the order of bytes for tables, by the kind and the options with these numbers of the
/// header.
fn order_by_numbers(kind: u32, options: u32, one: &[u8], other: &[u8]) -> Ordering
    ensures { result ≡ key_order kind options one.now other.now }
{
    let Some(rules) = rule_set(options) else {
        return one.cmp(other);
    };
    match kind {
        0 => order::<UriKind>(rules, one, other),
        1 => order::<UriRefKind>(rules, one, other),
        2 => order::<IriKind>(rules, one, other),
        3 => order::<IriRefKind>(rules, one, other),
        _ => one.cmp(other),
    }
}

/// Returns 0 if the first text is before the second, 1 if they are one key, and 2 if it is after
/// the second: texts of the kind by their normal forms, and all other bytes after these. Takes no
/// memory.
#[unsafe(no_mangle)]
pub extern "C" fn fluent_uri_compare(kind: u32, options: u32, one: &[u8], other: &[u8]) -> u32
    ensures order { result ≡ order_number (key_order kind options one.now other.now) }
    ensures same { (result ≡ 1) ↔ AreOneKey kind options one.now other.now }
{
    if !is_possible_length(one) || !is_possible_length(other) {
        return Error::InvalidArgument.number();
    }
    match order_by_numbers(kind, options, one, other) {
        Ordering::Less => 0,
        Ordering::Equal => 1,
        Ordering::Greater => 2,
    }
}

/// Returns whether bytes are a text of the kind that is its own normal form.
fn are_bytes_own_normal_form<K: Kind>(rules: RuleSet, text: &[u8]) -> bool
    ensures { (result ≡ true) ↔ (normal_result rules K.kind text.now ≡ Ok text.now) }
{
    match parsed::<K>(text) {
        Ok(value) => NormalOrder::new()
            .scheme_rules_with(rules)
            .is_normal(&value),
        Err(_) => false,
    }
}

/// Returns 1 exactly if a text is of the kind and its own normal form, and else 0. Takes no memory.
#[unsafe(no_mangle)]
pub extern "C" fn fluent_uri_is_normal(kind: u32, options: u32, text: &[u8]) -> u32
    ensures number { result ≤ 1 }
    ensures normal { (result ≡ 1) ↔ (normalize_result kind options text.now ≡ Ok text.now) }
{
    if !is_possible_length(text) {
        return Error::InvalidArgument.number();
    }
    let Some(rules) = rule_set(options) else {
        return 0;
    };
    let is_normal = match kind {
        0 => are_bytes_own_normal_form::<UriKind>(rules, text),
        1 => are_bytes_own_normal_form::<UriRefKind>(rules, text),
        2 => are_bytes_own_normal_form::<IriKind>(rules, text),
        3 => are_bytes_own_normal_form::<IriRefKind>(rules, text),
        _ => false,
    };
    if is_normal { 1 } else { 0 }
}

/// Returns a hasher that begins with this seed.
fn seeded(seed: u64) -> Fnv
    ensures { result ≡ seeded seed }
{
    Fnv {
        state: 14695981039346656037 ^ seed,
    }
}

/// Returns the hash of bytes for tables as they are.
fn hash_of_bytes(seed: u64, bytes: &[u8]) -> u64
    ensures { result ≡ hash_of_bytes seed bytes.now }
{
    let mut hasher = seeded(seed);
    hash_bytes(bytes, &mut hasher);
    hasher.finish()
}

/// Returns the hash of bytes for tables, and whether they are a text of the kind.
fn hash<K: Kind>(rules: RuleSet, seed: u64, text: &[u8]) -> (u64, bool)
    ensures hash { result.0 ≡ hash_of_bytes seed
        (unwrap_or (result_ok (normal_result rules K.kind text.now)) text.now) }
    ensures text { result.1 ≡ is_some (result_ok (normal_result rules K.kind text.now)) }
{
    match parsed::<K>(text) {
        Ok(value) => {
            let mut hasher = seeded(seed);
            NormalOrder::new()
                .scheme_rules_with(rules)
                .hash(&value, &mut hasher);
            (hasher.finish(), true)
        }
        Err(_) => (hash_of_bytes(seed, text), false),
    }
}

/// Returns the hash of bytes for tables, and whether they are a text of the kind, by the kind and
/// the options with these numbers of the header.
fn hash_by_numbers(kind: u32, options: u32, seed: u64, text: &[u8]) -> (u64, bool)
    ensures hash { result.0 ≡ key_hash kind options seed text.now }
    ensures text { result.1 ≡ is_some (normal_key kind options text.now) }
{
    let Some(rules) = rule_set(options) else {
        return (hash_of_bytes(seed, text), false);
    };
    match kind {
        0 => hash::<UriKind>(rules, seed, text),
        1 => hash::<UriRefKind>(rules, seed, text),
        2 => hash::<IriKind>(rules, seed, text),
        3 => hash::<IriRefKind>(rules, seed, text),
        _ => (hash_of_bytes(seed, text), false),
    }
}

/// Writes the hash of a text for tables, FNV-1a of 64 bits: of its normal form if it is of the
/// kind, and else of itself, in blocks of 1,024 bytes from its end, and then of 255. Returns 1 if
/// it is of the kind, and else 0. Takes no memory.
#[unsafe(no_mangle)]
pub extern "C" fn fluent_uri_hash(
    kind: u32,
    options: u32,
    seed: u64,
    text: &[u8],
    hash: &mut u64,
) -> u32
    ensures hash { hash.new ≡ key_hash kind options seed text.now }
    ensures text { (result ≡ 1) ↔ (is_some (normal_key kind options text.now) ≡ true) }
    ensures number { result ≤ 1 }
    ensures same { (other : List ℕ) → AreOneKey kind options text.now other
        → hash.new ≡ key_hash kind options seed other }
{
    if !is_possible_length(text) {
        return Error::InvalidArgument.number();
    }
    let (found, is_text) = hash_by_numbers(kind, options, seed, text);
    *hash = found;
    if is_text { 1 } else { 0 }
}
