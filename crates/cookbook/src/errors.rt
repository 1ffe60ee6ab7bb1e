//! The error of a literal text: its kind and its index, by computing `refusal`.
#![tactic(auto, unfolding(fluent_uri::proofs::Calling::errors_on_literals))]

ghost use Rattle.std.specs.Prelude.{◌≡◌, Some};
ghost use Rattle.std.specs.Result.{result_err};
ghost use Rattle.fluent_uri.specs.Prelude.{malformed_ipv6, unexpected};

use fluent_uri::{ParseError, Uri, UriRef};

/// Returns the error of a text that has no scheme and is not a URI: `UnexpectedChar` at 11, where a
/// `:` is missing.
pub fn scheme_is_missing() -> Result<Uri<&'static str>, ParseError>
    ensures { result_err result ≡ Some (unexpected 11) }
{
    Uri::<&str>::parse("example.com/a")
}

/// Returns the error of an IPv6 address with a second `::`: `InvalidIpv6Addr` at 3, where the
/// address begins.
pub fn address_is_malformed() -> Result<UriRef<&'static str>, ParseError>
    ensures { result_err result ≡ Some (malformed_ipv6 3) }
{
    UriRef::<&str>::parse("//[1::2::3]")
}
