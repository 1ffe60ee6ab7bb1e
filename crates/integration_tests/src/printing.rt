//! What no clause says of printing: addresses and decoded texts in a given width, and what `{:?}`
//! prints of addresses and of texts past ASCII. The expected texts are those of Rust's `str` and of
//! the original.
use crate::comparison::equal;
use fluent_uri::Iri;
use fluent_uri::net::{IpAddr, Ipv4Addr, Ipv6Addr};
use fluent_uri::pct_enc::CowStr;
use std::alloc::Global;
use std::fmt::Display;
use std::process::Abort;

/// Checks in a test what a value prints on the right, on the left and in the middle of eight
/// characters, and cut to three.
fn prints<R: Abort, D: Display>(rt: &R, alloc: Global, value: &D, wanted: &str) {
    let printed = format!(in alloc; "[{value:>8}] [{value:8}] [{value:*^8}] [{value:.3}]");
    equal(printed.expect(rt, wanted).as_str(), wanted).expect(rt, wanted);
}

/// Tests what IP addresses and decoded texts print in a given width.
#[test]
fn widths(rt: HostRuntime) {
    let wanted = "[ 1.2.3.4] [1.2.3.4 ] [1.2.3.4*] [1.2]";
    let address = Ipv4Addr::new(1, 2, 3, 4);
    prints(&rt, rt.alloc(), &address, wanted);
    prints(&rt, rt.alloc(), &IpAddr::V4(address), wanted);
    let wanted = "[     ::1] [::1     ] [**::1***] [::1]";
    prints(&rt, rt.alloc(), &Ipv6Addr::LOCALHOST, wanted);
    let wanted = "[     été] [été     ] [**été***] [été]";
    prints(&rt, rt.alloc(), &CowStr::Borrowed("été"), wanted);
}

/// Tests what `{:?}` prints of an IRI past ASCII, and of an address.
#[test]
fn components(rt: HostRuntime) {
    let iri = Iri::<&str>::parse("a://é@1.2.3.4:1/é?é#é").expect(&rt, "an IRI");
    let printed = format!(in rt.alloc(); "{iri:?}").expect(&rt, "memory");
    let wanted = "Iri { scheme: \"a\", authority: Some(Authority { userinfo: Some(\"é\"), \
        host: \"1.2.3.4\", host_parsed: Ipv4(1.2.3.4), port: Some(\"1\") }), path: \"/é\", query: Some(\"é\"), \
        fragment: Some(\"é\") }";
    equal(printed.as_str(), wanted).expect(&rt, "an IRI");
    let address = IpAddr::V6(Ipv6Addr::LOCALHOST);
    let printed = format!(in rt.alloc(); "{address:?}").expect(&rt, "memory");
    equal(printed.as_str(), "::1").expect(&rt, "an address");
}
