//! Builders that are handed a closure.
#![tactic(auto)]

ghost use Rattle.fluent_uri.specs.Prelude.{AddsOrFails, contents_of, ip_host, parts_in_state, with_host};

use fluent_uri::UriRef;
use fluent_uri::build::state::{AuthorityStart, HostEnd};
use fluent_uri::build::{AsHost, AsPort, BuildError, Builder, WithEncoder};
use fluent_uri::net::IpAddr;
use fluent_uri::pct_enc::EStr;
use fluent_uri::pct_enc::encoder::{Path, Query, RegName};
use std::alloc::Global;

/// A caller builds a reference of a path, and of a query if there is one, which `optional` hands to
/// its step.
pub fn with_the_query_if_any(
    alloc: Global,
    path: EStr<'_, Path>,
    query: Option<EStr<'_, Query>>,
) -> Result<UriRef<String>, BuildError> {
    UriRef::<String>::builder(alloc)
        .path(path)
        .optional(Builder::query, query)
        .build()
}

/// A caller builds a reference of a path without an authority: `authority_with` gets a closure that
/// returns another builder.
pub fn with_no_authority(
    alloc: Global,
    path: EStr<'_, Path>,
) -> Result<UriRef<String>, BuildError> {
    UriRef::<String>::builder(alloc)
        .authority_with(|_| UriRef::<String>::builder(alloc))
        .path(path)
        .build()
}

/// A caller gives a builder a host that is an address: the text of the address, an IPv6 address in
/// brackets.
pub fn with_address(
    begun: Builder<UriRef<String>, AuthorityStart>,
    address: IpAddr,
) -> Builder<UriRef<String>, HostEnd>
    ensures { AddsOrFails (with_host (ip_host address)) (parts_in_state (contents_of begun))
        (parts_in_state (contents_of result)) }
{
    begun.host(address)
}

/// A caller gives a builder a host and a port of any type that a builder takes.
pub fn with_host_and_port<H: AsHost + WithEncoder<RegName>, P: AsPort>(
    alloc: Global,
    host: H,
    port: P,
) -> Result<UriRef<String>, BuildError> {
    UriRef::<String>::builder(alloc)
        .authority_with(|authority| authority.host(host).port(port))
        .path(EStr::EMPTY)
        .build()
}
