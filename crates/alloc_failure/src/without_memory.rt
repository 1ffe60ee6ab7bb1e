//! Calls that could allocate and do not, so that none of them meets a failed allocation. What gets
//! no allocator, nor a value that keeps one, has none to request memory of.
use crate::requests::{end, tried};
use crate::values::{encoded, holds, is_encoded, is_text, parsed};
use fluent_uri::build::Builder;
use fluent_uri::build::state::FragmentEnd;
use fluent_uri::component::{SocketError, SocketTarget};
use fluent_uri::normalize::Normalizer;
use fluent_uri::pct_enc::encoder::{Fragment, Path};
use fluent_uri::pct_enc::{CowStr, EStr, EString};
use fluent_uri::resolve::{ResolveError, Resolver};
use fluent_uri::{Iri, IriRef, Reference, UriRef};
use integration_tests::comparison::equal;
use std::alloc::Global;
use uri_links::links::{Outcome, Register};
use uri_parts::kind::{IriKind, IriRefKind, Kind, UriKind, UriRefKind};

/// Returns whether the empty text is of the kind, for a test of calls that request no memory.
fn is_empty_of_kind<K: Kind>(alloc: Global) -> bool {
    Reference::<K, String>::parse(String::new(alloc)).is_ok()
}

/// Tests that parsing, cutting and converting a text that is owned requests no memory, and handing
/// it back none.
#[test]
fn owned_texts(rt: HostRuntime) {
    let alloc = rt.alloc();
    let text = tried!(&rt; "String::from_str", String::from_str(alloc, "/a?b#c"));
    let mut owned = UriRef::<String>::parse(text).expect(&rt, "a reference");
    owned.set_fragment(None).expect(&rt, "no fragment");
    is_text(&rt, owned.borrow().as_str(), "/a?b");
    is_text(&rt, owned.path().as_str(), "/a");
    let (_, back) = Iri::try_from(IriRef::from(owned))
        .err()
        .expect(&rt, "no scheme");
    is_text(&rt, back.into_string().as_str(), "/a?b");
    holds(&rt, is_empty_of_kind::<IriRefKind>(alloc), "a reference");
    holds(&rt, !is_empty_of_kind::<UriKind>(alloc), "no URI");
    holds(&rt, !is_empty_of_kind::<IriKind>(alloc), "no IRI");
    end(&rt, alloc);
}

/// Tests that decoding to a text requests no memory if nothing is percent-encoded.
#[test]
fn texts_without_octets(rt: HostRuntime) {
    let alloc = rt.alloc();
    let path = encoded::<_, Path>(&rt, "a/b");
    let text = path.decode().to_string(alloc).expect(&rt, "to_string");
    is_text(&rt, text.as_str(), "a/b");
    let text = path.decode().to_string_lossy(alloc);
    is_text(&rt, text.expect(&rt, "to_string_lossy").as_str(), "a/b");
    is_encoded(&rt, path.split('/').next(), "a");
    end(&rt, alloc);
}

/// Tests that decoding to bytes requests no memory if nothing is percent-encoded.
#[test]
fn bytes_without_octets(rt: HostRuntime) {
    let alloc = rt.alloc();
    let bytes = encoded::<_, Path>(&rt, "a/b").decode().to_bytes(alloc);
    equal(bytes.expect(&rt, "to_bytes").as_slice(), b"a/b".as_slice()).expect(&rt, "to_bytes");
    end(&rt, alloc);
}

/// Tests that what fits the capacity of an encoded text requests no memory.
#[test]
fn texts_within_capacity(rt: HostRuntime) {
    let mut text = tried!(&rt; "with_capacity", EString::<Path>::with_capacity(rt.alloc(), 5));
    text.push('a').expect(&rt, "room");
    text.push_estr(encoded(&rt, "/%41")).expect(&rt, "room");
    is_text(&rt, text.as_str(), "a/%41");
    let empty = EString::<Path>::new(rt.alloc());
    equal((empty.capacity(), empty.as_str()), (0, "")).expect(&rt, "EString::new");
    end(&rt, rt.alloc());
}

/// Tests that `socket_target` requests no memory for an invalid port, nor for a name without
/// percent-encoded octets.
#[test]
fn where_to_connect(rt: HostRuntime) {
    let alloc = rt.alloc();
    let far = parsed::<_, UriRefKind>(&rt, "//%41:65536").authority();
    let refused = far.expect(&rt, "an authority").socket_target(alloc, 1);
    equal(refused.err(), Some(SocketError::InvalidPort)).expect(&rt, "a port");
    let named = parsed::<_, UriRefKind>(&rt, "//h").authority();
    match named
        .expect(&rt, "//h")
        .socket_target(alloc, 1)
        .expect(&rt, "a name")
    {
        SocketTarget::Name(CowStr::Borrowed(name), port) => {
            equal((name, port), ("h", 1)).expect(&rt, "a name");
        }
        _ => assert!(rt; false, "another target"),
    }
    end(&rt, alloc);
}

/// Bases against which `//g` has no target, each with the error.
const REFUSED: &[(&str, ResolveError)] = &[
    ("foo:bar", ResolveError::InvalidReferenceAgainstOpaqueBase),
    ("s:/a#f", ResolveError::BaseWithFragment),
];

/// Tests that `resolve_against` and a `Resolver` request no memory for a reference that has no
/// target.
#[test]
fn references_without_a_target(rt: HostRuntime) {
    let alloc = rt.alloc();
    let reference = parsed::<_, UriRefKind>(&rt, "//g");
    for &(text, error) in REFUSED {
        let base = parsed::<_, UriKind>(&rt, text);
        equal(reference.resolve_against(alloc, &base).err(), Some(error)).expect(&rt, text);
        let resolver = Resolver::with_base(base);
        let refused = resolver.resolve_normalized(alloc, &reference, &Normalizer::new());
        equal(refused.err(), Some(error)).expect(&rt, text);
    }
    end(&rt, alloc);
}

/// Tests that a register of links requests no memory for a reference that has no target.
#[test]
fn links_without_a_target(rt: HostRuntime) {
    let reference = parsed::<_, UriRefKind>(&rt, "//g");
    let mut register = Register::new(rt.alloc(), Normalizer::new());
    for &(text, error) in REFUSED {
        let base = parsed::<_, UriKind>(&rt, text);
        let outcome = register.note(&base, &reference).expect(&rt, text);
        equal(outcome, Outcome::Refused(error)).expect(&rt, text);
    }
    end(&rt, rt.alloc());
}

/// Tests that builders of an empty reference request no memory.
#[test]
fn builders_of_nothing(rt: HostRuntime) {
    let alloc = rt.alloc();
    let built = UriRef::<String>::builder(alloc)
        .path(EStr::EMPTY)
        .optional(Builder::query, None)
        .advance::<FragmentEnd>()
        .build();
    is_text(&rt, built.expect(&rt, "a reference").as_str(), "");
    let none: Option<EStr<'_, Fragment>> = None;
    let built = UriRef::<String>::builder(alloc)
        .path(EStr::EMPTY)
        .optional(Builder::fragment, none)
        .build();
    holds(&rt, built.is_ok(), "a reference");
    end(&rt, alloc);
}
