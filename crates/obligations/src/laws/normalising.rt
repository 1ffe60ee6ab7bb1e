//! Normal forms (RFC 3986, section 6.2.2).
ghost use Rattle.std.specs.Prelude.{◌≡◌, IfOk, true};
ghost use Rattle.fluent_uri.specs.Prelude.{HasComponentSets, IsNormalForm, IsTextOf, Kind, Rules, default_rules, iri, iri_text, meaning_under, normal_text, same_meaning};

use fluent_uri::{Iri, laws};
use std::alloc::{AllocError, Global};

/// A caller proves that a normal form is its own normal form, and returns it with its own.
///
/// # Errors
///
/// Only if allocation fails.
pub fn same_when_normalised_twice(
    alloc: Global,
    given: Iri<&str>,
) -> Result<(Iri<String>, Iri<String>), AllocError>
    ensures first { IfOk result (λ both.
        IsNormalForm iri default_rules (iri_text given.entry) (iri_text both.0)) }
    ensures equal { IfOk result (λ both. iri_text both.1 ≡ iri_text both.0) }
{
    let normal = given.normalize(alloc)?;
    let again = normal.normalize(alloc)?;
    Ok((normal, again))
}

/// A caller proves that a text of any kind with sets such as those of the four kinds is equivalent
/// to its normal text under any rules.
pub fn normal_text_means_the_same(text: &str)
    ensures { (kind : Kind) (rules : Rules) → HasComponentSets kind → IsTextOf kind text.now
        → meaning_under kind rules (normal_text (meaning_under kind rules text.now))
        ≡ meaning_under kind rules text.now }
{
    laws::normal_texts_are_canonical();
}

/// A caller proves that texts whose meanings have equal parts have one normal text.
pub fn normal_text_of_equal_parts(text: &str, other: &str)
    requires { same_meaning (meaning_under iri default_rules text.now)
        (meaning_under iri default_rules other.now) ≡ true }
    ensures { normal_text (meaning_under iri default_rules text.now)
        ≡ normal_text (meaning_under iri default_rules other.now) }
{
    laws::meanings_are_equal_if_their_parts_are();
}

/// A caller proves that parsing the text of a normal form again never fails, and returns that form.
///
/// # Errors
///
/// Only if allocation fails.
pub fn parsed_once_more(alloc: Global, given: Iri<&str>) -> Result<Iri<String>, AllocError>
    ensures { IfOk result (λ normal.
        IsNormalForm iri default_rules (iri_text given.entry) (iri_text normal)) }
{
    match Iri::<String>::parse(given.normalize(alloc)?.into_string()) {
        Ok(normal) => Ok(normal),
        Err(_) => unreachable!(),
    }
}
