//! Builders in each state, as functions take and return them (RFC 3986, section 3).
#![tactic(auto)]

use fluent_uri::build::state::{
    AuthorityEnd, AuthorityStart, BeginsAuthority, End, FragmentEnd, HostEnd, NonRefStart, PathEnd,
    PortEnd, QueryEnd, SchemeEnd, Start, State, StateOf, UserinfoEnd,
};
use fluent_uri::build::{AdvanceTo, BuildError, Builder, To};
use fluent_uri::component::{Authority, Scheme};
use fluent_uri::pct_enc::EStr;
use fluent_uri::pct_enc::encoder::{Fragment, Path, Query, Userinfo};
use fluent_uri::{RiMaybeRef, Uri, UriRef};
use std::alloc::Global;

/// A caller begins a URI, of which the scheme comes first.
pub fn begun_uri(alloc: Global) -> Builder<Uri<String>, NonRefStart> {
    Uri::<String>::builder(alloc)
}

/// A caller begins a URI reference with a scheme and an authority.
pub fn begun(
    alloc: Global,
    scheme: Scheme<'_>,
    authority: Authority<'_>,
) -> Builder<UriRef<String>, AuthorityEnd> {
    let builder: Builder<UriRef<String>, Start> = UriRef::<String>::builder(alloc);
    let builder: Builder<UriRef<String>, SchemeEnd> = builder.scheme(scheme);
    builder.authority(authority)
}

/// A caller adds userinfo to an authority that is begun.
pub fn with_userinfo(
    builder: Builder<UriRef<String>, AuthorityStart>,
    userinfo: EStr<'_, Userinfo>,
) -> Builder<UriRef<String>, UserinfoEnd> {
    builder.userinfo(userinfo)
}

/// A caller adds a port, unless it is 443.
pub fn with_port(
    builder: Builder<UriRef<String>, HostEnd>,
    port: u16,
) -> Builder<UriRef<String>, PortEnd> {
    builder.port_with_default(port, 443)
}

/// A caller adds what follows an authority.
pub fn ended(
    builder: Builder<UriRef<String>, AuthorityEnd>,
    path: EStr<'_, Path>,
    query: EStr<'_, Query>,
    fragment: EStr<'_, Fragment>,
) -> Builder<UriRef<String>, FragmentEnd> {
    let builder: Builder<UriRef<String>, PathEnd> = builder.path(path);
    let builder: Builder<UriRef<String>, QueryEnd> = builder.query(query);
    builder.fragment(fragment)
}

/// A caller leaves out the steps up to a state, from any state that allows it.
pub fn advanced<R: RiMaybeRef, S: StateOf<R> + AdvanceTo<T>, T: State + StateOf<R>>(
    builder: Builder<R, S>,
) -> Builder<R, T> {
    builder.advance()
}

/// A caller adds an authority in any state in which one may begin.
pub fn with_empty_authority<S: BeginsAuthority + StateOf<UriRef<String>>>(
    builder: Builder<UriRef<String>, S>,
) -> Builder<UriRef<String>, AuthorityEnd> {
    builder.authority(Authority::new_empty())
}

/// A caller builds in any state in which this is allowed.
///
/// # Errors
///
/// Those of `build`.
pub fn built<S: To<End> + StateOf<UriRef<String>>>(
    builder: Builder<UriRef<String>, S>,
) -> Result<UriRef<String>, BuildError> {
    builder.build()
}
