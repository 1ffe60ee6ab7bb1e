//! The order of normal forms that are not made, beside that of those that are.

use crate::fields::{RowError, Words};
use crate::references::parsed;
use fluent_uri::Reference;
use fluent_uri::normalize::{Normalizer, SchemeRules};
use std::alloc::Global;
use std::cmp::Ordering;
use std::hash::{DefaultHasher, Hasher};
use uri_order::NormalOrder;
use uri_parts::kind::Kind;

/// Returns the word that rows have for an order.
fn word_of_order(order: Ordering) -> &'static str {
    match order {
        Ordering::Less => "less",
        Ordering::Equal => "equal",
        Ordering::Greater => "greater",
    }
}

/// Returns the hash of a value by its normal form.
fn hash_of<K: Kind, S: SchemeRules>(order: &NormalOrder<S>, value: &Reference<K, &str>) -> u64 {
    let mut state = DefaultHasher::new();
    order.hash(value, &mut state);
    state.finish()
}

/// Appends to a row's result the order of two texts by their normal forms under the rules, and what
/// differs if these are made, the texts change places, or their equivalence or hashes are asked
/// for.
pub(crate) fn compare<K: Kind, S: SchemeRules + Copy>(
    alloc: Global,
    rules: S,
    (one, other): (&str, &str),
    words: &mut Words,
) -> Result<(), RowError> {
    let (one, other) = (parsed::<K>(one)?, parsed::<K>(other)?);
    let order = NormalOrder::new().scheme_rules_with(rules);
    let met = order.cmp(&one, &other);
    words.verbatim(word_of_order(met))?;
    let is_reversed = order.cmp(&other, &one) == met.reverse();
    words.unless(is_reversed, "but not reversed")?;
    let is_equal = met == Ordering::Equal;
    let is_equivalent = order.is_equivalent(&one, &other);
    words.unless(is_equivalent == is_equal, "by another equivalence")?;
    let has_equal_hash = hash_of(&order, &one) == hash_of(&order, &other);
    words.unless(has_equal_hash == is_equal, "by another hash")?;
    let normalizer = Normalizer::new().scheme_rules_with(rules);
    let (one, other) = (
        normalizer.normalize(alloc, &one)?,
        normalizer.normalize(alloc, &other)?,
    );
    let made = one.as_str().cmp(other.as_str());
    Ok(words.unless(made == met, "by another order of normal forms")?)
}

/// Appends to a row's result whether a text is its own normal form under the rules, and whether one
/// that is made says otherwise.
pub(crate) fn is_normal<K: Kind, S: SchemeRules + Copy>(
    alloc: Global,
    rules: S,
    text: &str,
    words: &mut Words,
) -> Result<(), RowError> {
    let value = parsed::<K>(text)?;
    let is_normal = NormalOrder::new()
        .scheme_rules_with(rules)
        .is_normal(&value);
    words.verbatim(if is_normal { "yes" } else { "no" })?;
    let made = Normalizer::new()
        .scheme_rules_with(rules)
        .normalize(alloc, &value)?;
    let is_same = made.as_str() == text;
    Ok(words.unless(is_same == is_normal, "by another normal form")?)
}
