//! A text that the program owns, as a line of its input.
ghost use Rattle.std.specs.Prelude.{◌≡◌, option_map, string_bytes, IfOk};
ghost use Rattle.std.specs.Result.{result_err};
ghost use Rattle.fluent_uri.specs.Prelude.{refusal, uri, uri_text};

use crate::refusal::Failure;
use fluent_uri::Uri;

/// Parses a text as a URI, which keeps it without a copy.
///
/// # Errors
///
/// `Text` exactly if the text is not a URI.
pub fn owned_uri(text: String) -> Result<Uri<String>, Failure>
    ensures text { IfOk result (λ made. uri_text made ≡ string_bytes text) }
    ensures refused { result_err result
        ≡ option_map Failure.Text (refusal uri (string_bytes text)) }
{
    match Uri::<String>::parse(text) {
        Ok(made) => Ok(made),
        Err((error, _)) => Err(Failure::Text(error)),
    }
}
