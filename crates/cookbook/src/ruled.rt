//! From a text to its normal form by the rules of its scheme.
ghost use Rattle.std.specs.Prelude.{IfOk, IsOk, ◌≡◌, None};
ghost use Rattle.fluent_uri.specs.Prelude.{IsNormalForm, refusal, standard_rules, uri, uri_text};

use crate::refusal::Failure;
use fluent_uri::Uri;
use fluent_uri::normalize::{Normalizer, StandardRules};
use std::alloc::Global;

/// Parses a text as a URI, and returns its normal form by the rules of its scheme (RFC 3986,
/// section 6.2.3).
///
/// # Errors
///
/// `Text` if the text is not a URI; `OutOfMemory` if allocation fails.
///
/// # Examples
///
/// `HTTP://a:80` and `http://a/` both become `http://a/`.
pub fn ruled_form(alloc: Global, text: &str) -> Result<Uri<String>, Failure>
    ensures normal { IfOk result (λ made.
        IsNormalForm uri standard_rules text.now (uri_text made)) }
    ensures accepted { IsOk result → refusal uri text.now ≡ None }
{
    let uri = Uri::<&str>::parse(text)?;
    let normalizer = Normalizer::new().scheme_rules_with(StandardRules);
    match normalizer.normalize(alloc, &uri) {
        Ok(normal) => Ok(normal),
        Err(_) => Err(Failure::OutOfMemory),
    }
}
