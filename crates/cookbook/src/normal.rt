//! From a text to its normal form, in a function of its own.
ghost use Rattle.std.specs.Prelude.{◌≡◌, IfOk, IsOk, IsOkUnless, None};
ghost use Rattle.std.specs.Option.{option_map_or};
ghost use Rattle.fluent_uri.specs.Prelude.{IsNormalForm, default_rules, refusal, uri, uri_text};

use crate::refusal::Failure;
use fluent_uri::Uri;
use std::alloc::Global;

/// Parses a text as a URI, and returns its normal form (RFC 3986, section 6.2.2).
///
/// # Errors
///
/// `Text` exactly if the text is not a URI; `OutOfMemory` if allocation fails.
pub fn normal_form(alloc: Global, text: &str) -> Result<Uri<String>, Failure>
    ensures normal { IfOk result (λ made.
        IsNormalForm uri default_rules text.now (uri_text made)) }
    ensures accepted { IsOk result → refusal uri text.now ≡ None }
    ensures refused { IsOkUnless result
        (option_map_or Failure.Text (refusal uri text.now) Failure.OutOfMemory) }
{
    Ok(Uri::<&str>::parse(text)?.normalize(alloc)?)
}
