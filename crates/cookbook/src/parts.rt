//! A reference, taken apart (RFC 3986, section 3).
ghost use Rattle.std.specs.Prelude.{◌≡◌, option_map, IfOk};
ghost use Rattle.std.specs.Result.{result_err};
ghost use Rattle.fluent_uri.specs.Prelude.{authority_parts, components, refusal, uri_ref};

use fluent_uri::component::{Authority, Scheme};
use fluent_uri::{ParseError, UriRef};

/// What a program mostly asks of a reference. It lives as long as the text.
#[derive(Clone, Copy, Debug)]
pub struct Parts<'a> {
    pub scheme: Option<&'a str>,
    pub host: Option<&'a str>,
    pub path: &'a str,
}

/// Parses a text as a reference, and returns its scheme, host and path.
///
/// # Errors
///
/// Exactly if the text is not a URI reference; the error says what is wrong, and where.
///
/// # Examples
///
/// Of `foo://user@example.com:8042/over/there?name=ferret#nose` they are `foo`, `example.com` and
/// `/over/there`.
pub fn parts_of(text: &str) -> Result<Parts<'_>, ParseError>
    ensures error { result_err result ≡ refusal uri_ref text.now }
    ensures scheme { IfOk result (λ parts.
        option_map (λ s. s.now) parts.scheme ≡ (components text.now).scheme) }
    ensures host { IfOk result (λ parts. option_map (λ h. h.now) parts.host
        ≡ option_map (λ a. (authority_parts a).host) (components text.now).authority) }
    ensures path { IfOk result (λ parts. parts.path.now ≡ (components text.now).path) }
{
    let reference = UriRef::<&str>::parse(text)?;
    Ok(Parts {
        scheme: reference.scheme().map(Scheme::as_str),
        host: reference.authority().map(Authority::host),
        path: reference.path().as_str(),
    })
}
