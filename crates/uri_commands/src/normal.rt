//! The command `normalize KIND TEXT` (RFC 3986, section 6.2).
ghost use Rattle.std.specs.Prelude.{◌≡◌, false, IfOk, IfErr, string_bytes};
ghost use Rattle.fluent_uri.specs.Prelude.{IsOfKind, reference_text};
ghost use Rattle.uri_commands.specs.Commands.{Normalize};
ghost use Rattle.uri_commands.specs.Ends.{has_output_failed};
ghost use Rattle.uri_commands.specs.Kinds.{kind_named, normal_form_of};
ghost use Rattle.uri_commands.specs.Refusals.{IsErrorOfCommand, IsErrorOfNormalForm};

use crate::for_kind;
use crate::kinds::KindName;
use crate::refusal::CommandError;
use fluent_uri::Reference;
use fluent_uri::kind::Kind;
use fluent_uri::normalize::{Normalizer, RuleSet};
use std::alloc::{AllocError, Global};

/// Parses the text of `normalize` as the kind, and returns its normal form by these rules of
/// schemes.
///
/// # Errors
///
/// Returns `Text` if the text is not of the kind, and `OutOfMemory` if allocation fails.
#[tactic(auto, using(crate::proofs::NormalForms::error_of_normal_form_is_error_of_normalize))]
pub fn normalize_text(
    alloc: Global,
    kind: KindName,
    text: &str,
    rules: RuleSet,
) -> Result<String, CommandError>
    ensures of_kind { IfOk result (λ _. IsOfKind (kind_named kind) text.now) }
    ensures refused { IfErr result (IsErrorOfCommand (Normalize rules kind text.now)) }
    ensures normal { IfOk result (λ normal. string_bytes normal
        ≡ normal_form_of rules (kind_named kind) text.now) }
    ensures unwritten { has_output_failed result ≡ false }
{
    for_kind!(kind, parsed_normal_form(alloc, text, rules))
}

/// Parses a text as the kind, and returns its normal form.
fn parsed_normal_form<K: Kind>(
    alloc: Global,
    text: &str,
    rules: RuleSet,
) -> Result<String, CommandError>
    ensures of_kind { IfOk result (λ _. IsOfKind K.kind text.now) }
    ensures refused { IfErr result (IsErrorOfNormalForm K.kind text.now) }
    ensures normal { IfOk result (λ normal. string_bytes normal
        ≡ normal_form_of rules K.kind text.now) }
    ensures unwritten { has_output_failed result ≡ false }
{
    let value = Reference::<K, &str>::parse(text)?;
    Ok(normal_form(alloc, &value, rules)?.into_string())
}

/// Returns the normal form of a reference by these rules of schemes. Path underflow is never an
/// error.
///
/// # Errors
///
/// Returns an error only if allocation fails.
pub fn normal_form<K: Kind>(
    alloc: Global,
    value: &Reference<K, &str>,
    rules: RuleSet,
) -> Result<Reference<K, String>, AllocError>
    ensures { IfOk result (λ normal. reference_text normal
        ≡ normal_form_of rules K.kind (reference_text value.now)) }
{
    let normalizer = Normalizer::new().scheme_rules_with(rules);
    match normalizer.normalize(alloc, value) {
        Ok(normal) => Ok(normal),
        // Underflow is allowed, so memory ran out.
        Err(_) => Err(AllocError),
    }
}
