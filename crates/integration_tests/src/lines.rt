//! What the programs of the calling guide print for stored lines, and what its functions return.
use crate::comparison::{equal, prints};
use crate::words::owned;
use cookbook::attributes::note_attribute;
use cookbook::frontier::Frontier;
use cookbook::links::print_page;
use cookbook::pairs::print_pairs;
use cookbook::parts::parts_of;
use cookbook::reach::reach;
use cookbook::refusal::Failure;
use cookbook::segments::{PathError, path_of};
use cookbook::service::resource;
use cookbook::visits::count_visit;
use fluent_uri::Uri;
use fluent_uri::component::SocketTarget;
use fluent_uri::normalize::Normalizer;
use std::alloc::{AllocError, Global};
use std::collections::BTreeMap;
use std::process::Abort;
use uri_links::links::{Outcome, Register};
use uri_query::{Pair, query_of};

/// What is printed for a line, and what else it comes to.
enum Printing<'a> {
    /// By `Frontier::print_new`.
    New,
    /// By `print_page`, with this base.
    Page(&'a str),
    /// By `print_pairs`.
    Pairs,
}

/// Returns what a program of `cookbook` prints for the lines, and how many it rejects.
fn run(
    alloc: Global,
    printing: &Printing<'_>,
    lines: &[&str],
) -> Result<(Vec<u8>, usize), Failure> {
    let mut frontier = Frontier::new(alloc);
    let mut out = Vec::new(alloc);
    let mut rejected: usize = 0;
    for &line in lines {
        let printed = match printing {
            Printing::New => frontier.print_new(alloc, line, &mut out),
            Printing::Page(base) => {
                let base = Uri::<&str>::parse(base)?.to_owned(alloc)?;
                print_page(alloc, &base, line, &mut out)
            }
            Printing::Pairs => print_pairs(alloc, line, &mut out),
        };
        if printed.is_err() {
            rejected = rejected.saturating_add(1);
        }
    }
    Ok((out, rejected))
}

/// What is printed, lines, the output, and how many lines are rejected.
const RUNS: &[(Printing<'static>, &[&str], &str, usize)] = &[
    // RFC 3986, section 6.2.2: case, octets, dot segments and the default port.
    (
        Printing::New,
        &[
            "http://a/b",
            "HTTP://A:80/c/../%62",
            "http://a/B",
            "a b",
            "http://a/%7Eb",
            "http://a/~b",
        ],
        "http://a/b\nhttp://a/B\nhttp://a/~b\n",
        1,
    ),
    // RFC 3986, section 5.4, without the fragments.
    (
        Printing::Page("http://a/b/c/d;p?q"),
        &["g:h", "g?y#s", "#s", "//g", "../../../g", "g;x=1/../y", "%"],
        "g:h\nhttp://a/b/c/g?y\nhttp://a/b/c/d;p?q\nhttp://g\nhttp://a/g\nhttp://a/b/c/y\n",
        1,
    ),
    // RFC 3986, section 5.1: a base has no fragment when it is used.
    (Printing::Page("http://a/b#c"), &["d"], "", 1),
    // RFC 3986, sections 2.1 and 2.4: `&` and `=` as data are octets, and so is `é` by its UTF-8.
    (
        Printing::Pairs,
        &["name=ferret&page=2%263", "a=b=c&&caf%C3%A9", "#"],
        "name is ferret\npage is 2&3\nname=ferret&page=2%263\n\
         a is b=c\ncafé is \na=b%3Dc&caf%C3%A9=\n",
        1,
    ),
];

/// Tests what the programs of `cookbook` print for stored lines.
#[test]
fn prints_what_stored_lines_come_to(rt: HostRuntime) {
    for (printing, lines, out, rejected) in RUNS {
        let got = run(rt.alloc(), printing, lines).expect(&rt, out);
        equal(got.0.as_slice(), out.as_bytes()).expect(&rt, out);
        equal(got.1, *rejected).expect(&rt, out);
    }
}

/// Tests the parts that `cookbook` takes from a reference.
#[test]
fn takes_a_reference_apart(rt: HostRuntime) {
    let got = parts_of("foo://user@example.com:8042/over/there?name=ferret#nose");
    let got = got.expect(&rt, "parts");
    equal(got.scheme, Some("foo")).expect(&rt, "scheme");
    equal(got.host, Some("example.com")).expect(&rt, "host");
    equal(got.path, "/over/there").expect(&rt, "path");
}

/// Tests the URI that `cookbook` builds of segments and a pair that a user typed.
#[test]
fn builds_from_what_was_typed(rt: HostRuntime) {
    let alloc = rt.alloc();
    let typed = owned(alloc, &["a b", "c/d", "é"]).expect(&rt, "memory");
    let path = path_of(alloc, typed.as_slice()).expect(&rt, "path");
    let pair = Pair {
        name: String::from_str(alloc, "q").expect(&rt, "memory"),
        value: String::from_str(alloc, "x&y").expect(&rt, "memory"),
    };
    let query = query_of(alloc, &[pair]).expect(&rt, "query");
    let service = Uri::<&str>::parse("http://[::1]:8080/?z#z").expect(&rt, "service");
    let authority = service.authority().expect(&rt, "authority");
    let made = resource(alloc, authority, path.as_estr(), query.as_estr());
    let made = made.expect(&rt, "made");
    prints(
        alloc,
        &made,
        "https://[::1]:8080/a%20b/c%2Fd/%C3%A9?q=x%26y",
    )
    .expect(&rt, "made");
    let dots = owned(alloc, &["a", ".."]).expect(&rt, "memory");
    equal(
        path_of(alloc, dots.as_slice()).err(),
        Some(PathError::DotSegment),
    )
    .expect(&rt, "dots");
}

/// Tests that `cookbook` counts visits of equivalent URIs together.
#[test]
fn counts_visits(rt: HostRuntime) {
    let alloc = rt.alloc();
    let mut visits = BTreeMap::new(alloc);
    // RFC 3986, section 6.2.2: the first and the last are equivalent.
    for (text, wanted) in [("http://a/b", 1), ("http://a/c", 1), ("HTTP://A:80/%62", 2)] {
        let count = count_visit(alloc, &mut visits, text).expect(&rt, text);
        equal(count, wanted).expect(&rt, text);
    }
}

/// URIs, and the ports at which they are reached with 7 as the last resort.
const PORTS: &[(&str, Option<u16>)] = &[
    ("https://[::1]/a", Some(443)),
    ("HTTP://a:8080", Some(8080)),
    ("foo://a", Some(7)),
    ("mailto:a@b", None),
];

/// Tests at which port `cookbook` reaches a URI.
#[test]
fn finds_where_to_connect_to(rt: HostRuntime) {
    let alloc = rt.alloc();
    for &(text, wanted) in PORTS {
        let uri = Uri::<&str>::parse(text).expect(&rt, text);
        let port = match reach(alloc, uri, 7) {
            Some(Ok(SocketTarget::V4(_, port))) => Some(port),
            Some(Ok(SocketTarget::V6(_, port))) => Some(port),
            Some(Ok(SocketTarget::Name(_, port))) => Some(port),
            _ => None,
        };
        equal(port, wanted).expect(&rt, text);
    }
}

/// Links of the page `http://example.com/a/` as its attributes have them, and what noting them in
/// order returns.
const ATTRIBUTES: &[(&str, Option<Outcome>)] = &[
    (" b c\n", Some(Outcome::New(0))),
    ("/a/%62%20c", Some(Outcome::Known(0))),
    ("?x=[1]", Some(Outcome::New(1))),
    ("http://good.com\\@evil.com/", None),
];

/// Tests what `cookbook` notes of the links of attributes.
#[test]
fn notes_attributes(rt: HostRuntime) {
    let alloc = rt.alloc();
    let base = Uri::<&str>::parse("http://example.com/a/").expect(&rt, "base");
    let mut register = Register::new(alloc, Normalizer::new());
    for &(attribute, wanted) in ATTRIBUTES {
        let outcome = note_attribute(alloc, &mut register, &base, attribute).ok();
        equal(outcome, wanted).expect(&rt, attribute);
    }
}
