//! Where to connect to.
ghost use Rattle.std.specs.Prelude.{◌≡◌, is_some, IfSome};
ghost use Rattle.fluent_uri.specs.Prelude.{components, uri_text};
ghost use Rattle.cookbook.specs.Reaching.{IsReachedAt, default_port_or};

use fluent_uri::Uri;
use fluent_uri::component::{SocketError, SocketTarget};
use std::alloc::Global;

/// Returns where to connect to for a URI (RFC 3986, sections 3.2.2 and 3.2.3), if it has an
/// authority: at its port, else at the default port of its scheme, and at the given one where the
/// scheme has none. No name is looked up.
///
/// # Errors
///
/// Those of `Authority::socket_target`.
///
/// # Examples
///
/// Of `https://[::1]/a` it is the address `::1` at 443.
pub fn reach<'a>(
    alloc: Global,
    uri: Uri<&'a str>,
    port: u16,
) -> Option<Result<SocketTarget<'a>, SocketError>>
    ensures some { is_some result ≡ is_some (components (uri_text uri.entry)).authority }
    ensures reached { let p = components (uri_text uri.entry) in
        IfSome result (λ answer. IfSome p.authority (λ authority.
        IsReachedAt authority (default_port_or p port) answer)) }
{
    let authority = uri.authority()?;
    let port = uri.scheme().default_port().unwrap_or(port);
    Some(authority.socket_target(alloc, port))
}
