//! The URIs of a service.
ghost use Rattle.std.specs.Prelude.{◌≡◌, ◌≢◌, codes, true, IfErr, IfOk, None, Some};
ghost use Rattle.fluent_uri.specs.Prelude.{build_error_of_path};
ghost use Rattle.fluent_uri.specs.Prelude.{authority_text, components, text_of, uri_text};

use fluent_uri::Uri;
use fluent_uri::build::BuildError;
use fluent_uri::component::{Authority, Scheme};
use fluent_uri::pct_enc::EStr;
use fluent_uri::pct_enc::encoder::{Path, Query};
use std::alloc::Global;

/// Returns the URI of a service at an authority, under `https`, with this path and query, and with
/// no fragment (RFC 3986, section 5.3).
///
/// # Errors
///
/// Those of `Builder::build`: `NonemptyRootlessPath` if the path is neither empty nor begins with
/// `/`, and `OutOfMemory` if allocation fails.
///
/// # Examples
///
/// Of `example.com:8042`, `/over/there` and `name=ferret` it is
/// `https://example.com:8042/over/there?name=ferret`.
pub fn resource(
    alloc: Global,
    authority: Authority<'_>,
    path: EStr<'_, Path>,
    query: EStr<'_, Query>,
) -> Result<Uri<String>, BuildError>
    ensures scheme { IfOk result (λ made.
        (components (uri_text made)).scheme ≡ Some (codes "https")) }
    ensures authority { IfOk result (λ made.
        (components (uri_text made)).authority ≡ Some (authority_text authority.entry)) }
    ensures path { IfOk result (λ made.
        (components (uri_text made)).path ≡ text_of path.entry) }
    ensures query { IfOk result (λ made.
        (components (uri_text made)).query ≡ Some (text_of query.entry)) }
    ensures fragment { IfOk result (λ made. (components (uri_text made)).fragment ≡ None) }
    ensures refused { IfErr result (λ e. e ≢ BuildError.OutOfMemory
        → build_error_of_path true true (text_of path.entry) ≡ Some e) }
{
    let made = Uri::<String>::builder(alloc)
        .scheme(Scheme::new_or_panic("https"))
        .authority(authority)
        .path(path)
        .query(query)
        .build()?;
    Ok(made)
}
