//! Builders: a step whose allocation fails marks the builder, which keeps its mark until `build`.
use crate::requests::{end, report, succeeds};
use crate::values::encoded;
use fluent_uri::build::state::FragmentEnd;
use fluent_uri::build::{BuildError, Builder};
use fluent_uri::component::Scheme;
use fluent_uri::net::{Ipv4Addr, Ipv6Addr};
use fluent_uri::pct_enc::EStr;
use fluent_uri::pct_enc::encoder::{Encoder, Port, RegName, Userinfo};
use fluent_uri::{RiMaybeRef, Uri, UriRef};
use integration_tests::comparison::equal;
use std::process::Abort;

// Each is longer than the free room after those before it.
const NAME: &str = "01234567";

const PATH: &str = "/0123456789012345";

const QUERY: &str = "012345678901234567890123456789";

const FRAGMENT: &str = "012345678901234567890123456789012345678901234567890123456789";

/// Makes a scheme of a literal, for a builder in a test of denied memory, or ends the test.
fn scheme<'a, R: Abort>(rt: &R, text: &'a str) -> Scheme<'a> {
    Scheme::new(text).expect(rt, text)
}

/// Checks in a test of denied memory that a builder returned this text, or `OutOfMemory`.
fn is_built<R: Abort + Print, V: RiMaybeRef + Drop>(
    rt: &R,
    built: &Result<V, BuildError>,
    wanted: &str,
) {
    if succeeds(rt, wanted, built) {
        equal(built.as_ref().map(V::as_str).ok(), Some(wanted)).expect(rt, wanted);
    }
}

/// Checks in a test of denied memory that a builder returned this error, or `OutOfMemory`.
fn is_rejected<R: Abort + Print, V: RiMaybeRef + Drop>(
    rt: &R,
    built: Result<V, BuildError>,
    wanted: BuildError,
) {
    match built.err() {
        Some(BuildError::OutOfMemory) => report(rt, "build of what would be refused"),
        other => equal(other, Some(wanted)).expect(rt, "a refusal"),
    }
}

/// Tests a builder of a URI with all parts while memory is denied.
#[test]
fn uri_of_all_parts(rt: HostRuntime) {
    let other = Uri::<&str>::parse("s://01234567").expect(&rt, "a URI");
    let built = Uri::<String>::builder(rt.alloc())
        .scheme(scheme(&rt, "s"))
        .authority(other.authority().expect(&rt, "an authority"))
        .path(encoded(&rt, PATH))
        .query(encoded(&rt, QUERY))
        .fragment(encoded(&rt, FRAGMENT))
        .build();
    is_built(
        &rt,
        &built,
        "s://01234567/0123456789012345?012345678901234567890123456789#012345678901234567890123456789012345678901234567890123456789",
    );
    end(&rt, rt.alloc());
}

/// Tests a builder of a URI reference with an optional query while memory is denied.
#[test]
fn reference_of_optional_parts(rt: HostRuntime) {
    let built = UriRef::<String>::builder(rt.alloc())
        .path(encoded(&rt, PATH))
        .optional(Builder::query, Some(encoded(&rt, QUERY)))
        .optional(Builder::fragment, None)
        .build();
    is_built(
        &rt,
        &built,
        "/0123456789012345?012345678901234567890123456789",
    );
    end(&rt, rt.alloc());
}

/// Tests a builder of userinfo, a host and a port while memory is denied.
#[test]
fn parts_of_an_authority(rt: HostRuntime) {
    let user: EStr<'_, Userinfo> = encoded(&rt, NAME);
    let name: EStr<'_, RegName> = encoded(&rt, NAME);
    let port: EStr<'_, Port> = encoded(&rt, "0123456789012345");
    let built = Uri::<String>::builder(rt.alloc())
        .scheme(scheme(&rt, "s"))
        .authority_with(|authority| authority.userinfo(user).host(name).port(port))
        .path(EStr::EMPTY)
        .build();
    is_built(&rt, &built, "s://01234567@01234567:0123456789012345");
    end(&rt, rt.alloc());
}

/// Tests builders with IP addresses as hosts and numbers as ports while memory is denied.
#[test]
fn addresses_and_numbers(rt: HostRuntime) {
    let built = UriRef::<String>::builder(rt.alloc())
        .authority_with(|authority| authority.host(Ipv4Addr::new(127, 0, 0, 1)).port(65535))
        .path(EStr::EMPTY)
        .build();
    is_built(&rt, &built, "//127.0.0.1:65535");
    let built = UriRef::<String>::builder(rt.alloc())
        .authority_with(|authority| authority
            .host(Ipv6Addr::new(1, 2, 3, 4, 5, 6, 7, 8))
            .port_with_default(65535, 80))
        .path(EStr::EMPTY)
        .build();
    is_built(&rt, &built, "//[1:2:3:4:5:6:7:8]:65535");
    end(&rt, rt.alloc());
}

/// Tests that a builder that was denied memory returns `OutOfMemory`, whatever else it would
/// reject.
#[test]
fn mark_before_another_error(rt: HostRuntime) {
    let built = UriRef::<String>::builder(rt.alloc())
        .path(encoded(&rt, "a:b"))
        .query(encoded(&rt, QUERY))
        .advance::<FragmentEnd>()
        .build();
    is_rejected(&rt, built, BuildError::FirstPathSegmentContainsColon);
    let built = UriRef::<String>::builder(rt.alloc())
        .path(encoded(&rt, "//"))
        .optional(Builder::query, Some(encoded(&rt, QUERY)))
        .optional(Builder::fragment, None)
        .build();
    is_rejected(&rt, built, BuildError::PathStartsWithDoubleSlash);
    end(&rt, rt.alloc());
}

/// Tests that a builder that was denied memory in its authority returns that error at `build`.
#[test]
fn mark_through_an_authority(rt: HostRuntime) {
    let name: EStr<'_, RegName> = encoded(&rt, NAME);
    let built = Uri::<String>::builder(rt.alloc())
        .scheme(scheme(&rt, "s"))
        .authority_with(|authority| authority.host(name).port(65535))
        .path(encoded(&rt, "rootless"))
        .advance::<FragmentEnd>()
        .build();
    is_rejected(&rt, built, BuildError::NonemptyRootlessPath);
    end(&rt, rt.alloc());
}
