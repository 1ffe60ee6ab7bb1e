//! The index of a parse error (`docs/PARSE_ERRORS.md`).
ghost use Rattle.std.specs.Prelude.{◌≡◌, IfErr, false, take, true};
ghost use Rattle.fluent_uri.specs.Prelude.{IsViablePrefix, error_index, has_late_error, uri};

use fluent_uri::{ParseError, Uri, laws};

/// A caller that underlines a text from its error on proves that what is before the error can be
/// completed to a URI, if the error is not late.
///
/// # Errors
///
/// Those of `Uri::parse`.
pub fn underlined_from_its_error(text: &str) -> Result<Uri<&str>, ParseError>
    ensures { has_late_error uri text.now ≡ false → IfErr result
        (λ error. IsViablePrefix uri (take (error_index error) text.now)) }
{
    laws::what_is_before_an_error_begins_a_text();
    Uri::<&str>::parse(text)
}

/// A caller that completes what is typed proves that nothing completes what is before an error that
/// is late, so that it has nothing to offer.
///
/// # Errors
///
/// Those of `Uri::parse`.
pub fn completed_by_nothing(text: &str) -> Result<Uri<&str>, ParseError>
    ensures { has_late_error uri text.now ≡ true → IfErr result
        (λ error. IsViablePrefix uri (take (error_index error) text.now) → ⊥) }
{
    laws::what_is_before_a_late_error_begins_no_text();
    Uri::<&str>::parse(text)
}
