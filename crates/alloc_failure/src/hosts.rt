//! Hosts in ASCII, as DNS has them.
use crate::requests::{MayBeOutOfMemory, end, tried};
use crate::values::{holds, is_text, parsed};
use fluent_uri::pct_enc::CowStr;
use uri_idna::{AsciiHostError, ascii_host, to_uri_with_ascii_host};
use uri_parts::kind::{IriKind, IriRefKind};

impl MayBeOutOfMemory for AsciiHostError {
    /// Returns whether the error of a host in a test of denied memory is `OutOfMemory`.
    fn is_out_of_memory(&self) -> bool {
        matches!(*self, AsciiHostError::OutOfMemory)
    }
}

/// Tests that a host in ASCII without a `%` is returned without a request for memory.
#[test]
fn hosts_in_ascii(rt: HostRuntime) {
    let alloc = rt.alloc();
    for text in ["//h", "//127.0.0.1", "//[::1]", "//[v1.a]"] {
        let authority = parsed::<_, IriRefKind>(&rt, text).authority();
        let host = ascii_host(alloc, authority.expect(&rt, text));
        holds(&rt, matches!(host, Ok(CowStr::Borrowed(_))), text);
    }
    end(&rt, alloc);
}

/// Tests `to_uri_with_ascii_host`, and the calls that it makes, while memory is denied.
#[test]
fn uris_with_hosts_in_ascii(rt: HostRuntime) {
    let alloc = rt.alloc();
    let iri = parsed::<_, IriKind>(&rt, "s://bücher/é");
    let made = tried!(&rt; "to_uri_with_ascii_host", to_uri_with_ascii_host(alloc, &iri));
    is_text(&rt, made.as_str(), "s://xn--bcher-kva/%C3%A9");
    end(&rt, alloc);
}
