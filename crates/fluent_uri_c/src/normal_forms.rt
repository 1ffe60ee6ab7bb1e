//! The normal forms of bytes. Most texts are their own: these need no copy.
ghost use Rattle.std.specs.Prelude.{◌≡◌, IfOk, true};
ghost use Rattle.fluent_uri.specs.Prelude.{reference_text};
ghost use Rattle.fluent_uri_c.specs.NormalForms.{normal_form_text};
ghost use Rattle.fluent_uri_c.specs.Results.{IsReturnedAs, normal_form_of, normal_result};

use crate::errors::Rejection;
use crate::texts::parsed;
use fluent_uri::normalize::Normalizer;
use fluent_uri::{IriRef, Reference, RiMaybeRef};
use std::alloc::{AllocError, Global};
use std::convert::AsStr;
use uri_ops::normalize::unchanged::is_found_normal;
use uri_ops::scheme_rules::RuleSet;
use uri_parts::kind::Kind;

/// The normal form of a text: the value itself, if it is unchanged, or a new one. A value of any
/// kind is one of IRI references too.
#[derive(Drop)]
pub enum NormalForm<'a> {
    Unchanged(IriRef<&'a str>),
    Made(IriRef<String>),
}

/// Returns a value of a kind as one of IRI references.
#[inline(always)]
fn as_iri_ref<K: Kind, T: AsStr>(value: Reference<K, T>) -> IriRef<T>
    ensures { reference_text result ≡ reference_text value }
{
    Reference::of_core(value.into_core().into_kind())
}

impl<'a> NormalForm<'a> {
    /// Returns the normal form of a value that is its own.
    #[inline(always)]
    fn unchanged<K: Kind>(value: Reference<K, &'a str>) -> NormalForm<'a>
        ensures { normal_form_text result ≡ reference_text value.entry }
    {
        NormalForm::Unchanged(as_iri_ref(value))
    }

    /// Returns a value that is a new normal form.
    #[inline(always)]
    fn made<K: Kind>(value: Reference<K, String>) -> NormalForm<'a>
        ensures { normal_form_text result ≡ reference_text value }
    {
        NormalForm::Made(as_iri_ref(value))
    }

    /// Returns the value, borrowed.
    pub fn borrow(&self) -> IriRef<&str>
        ensures { reference_text result ≡ normal_form_text self.now }
    {
        match self {
            NormalForm::Unchanged(value) => *value,
            NormalForm::Made(value) => value.borrow(),
        }
    }
}

/// Returns `true` only if a value is found to be its own normal form by a set of rules.
#[inline(always)]
pub fn is_own_normal_form<K: Kind>(rules: RuleSet, value: &Reference<K, &str>) -> bool
    ensures { let text = reference_text value.now in
        result ≡ true → normal_form_of rules K.kind text ≡ text }
{
    is_found_normal(value.core(), &rules)
}

/// Returns the normal form of a value by a set of rules, as a new value.
#[inline(always)]
pub fn normalized<K: Kind>(
    alloc: Global,
    rules: RuleSet,
    value: &Reference<K, &str>,
) -> Result<Reference<K, String>, AllocError>
    ensures { IfOk result (λ normal.
        reference_text normal ≡ normal_form_of rules K.kind (reference_text value.now)) }
{
    match Normalizer::new()
        .scheme_rules_with(rules)
        .normalize(alloc, value)
    {
        Ok(normal) => Ok(normal),
        // Underflow is allowed, so memory ran out.
        Err(_) => Err(AllocError),
    }
}

/// Returns the normal form of bytes that are a text of the kind. It takes no memory if the text is
/// found to be its own normal form.
pub fn normal_form<'a, K: Kind>(
    alloc: Global,
    bytes: &'a [u8],
    rules: RuleSet,
) -> Result<NormalForm<'a>, Rejection>
    ensures { IsReturnedAs normal_form_text (normal_result rules K.kind bytes.now) result }
{
    let value = parsed::<K>(bytes)?;
    if is_own_normal_form(rules, &value) {
        return Ok(NormalForm::unchanged(value));
    }
    Ok(NormalForm::made(normalized(alloc, rules, &value)?))
}
