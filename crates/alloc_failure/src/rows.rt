//! Calls that return a new value, by rows as `crates/vectors/data` has them: if memory is denied, a
//! row is out of memory, and else it holds.
use crate::requests::{end, report};
use crate::values::holds;
use std::alloc::Global;
use std::process::Abort;
use test_vectors::{Outcome, run_row};

/// Returns whether a row holds. If not, checks that it was denied memory, and prints so.
fn row_holds<R: Abort + Print>(rt: &R, alloc: Global, row: &str) -> bool {
    let outcome = run_row(alloc, row);
    let is_denied = matches!(outcome, Outcome::OutOfMemory);
    if is_denied {
        report(rt, row);
    }
    holds(rt, is_denied || matches!(outcome, Outcome::Holds), row);
    !is_denied
}

/// Checks that each row holds, a second time if memory is denied.
fn hold<R: Abort + Print>(rt: &R, alloc: Global, rows: &[&str]) {
    for &row in rows {
        if !row_holds(rt, alloc, row) {
            holds(rt, row_holds(rt, alloc, row), row);
        }
    }
    end(rt, alloc);
}

/// Tests normal forms while memory is denied: by default ports, of a text with a formatting
/// character, and by the rules of schemes.
#[test]
fn normal_forms(rt: HostRuntime) {
    let rows = [
        "normalize uri HTTP://H/a/../%7e -> http://h/~",
        "normalize iri-ref %c3%a9 -> é",
        "normalize-strict iri s:\\u{200e} -> s:%E2%80%8E",
        "normalize-by-rules uri HTTP://a:80?q#f -> http://a/?q#f",
        "normalize-by-rules uri file://localhost/a -> file:///a",
    ];
    hold(&rt, rt.alloc(), &rows);
}

/// Tests the texts of IRIs as URIs, other fragments, and mended texts while memory is denied.
#[test]
fn other_texts(rt: HostRuntime) {
    let rows = [
        "encode-as-uri iri s:é -> s:%C3%A9",
        "encode-as-uri iri-ref é -> %C3%A9",
        "with-fragment iri s:é#f #\\4{0123456789} -> s:é#\\4{0123456789}",
        "mend uri-ref 1:2 -> ./1:2",
        "mend iri-ref /é\\s| -> /é%20%7C",
        "mend uri-ref /\\6{漢} -> /%E6%BC%A2%E6%BC%A2%E6%BC%A2%E6%BC%A2%E6%BC%A2%E6%BC%A2",
        "ascii-host iri s://bücher/é -> s://xn--bcher-kva/é",
    ];
    hold(&rt, rt.alloc(), &rows);
}

/// Tests targets while memory is denied.
#[test]
fn targets(rt: HostRuntime) {
    let rows = [
        "resolve iri s://h/a/b ../é?q -> s://h/é?q",
        "resolve-strict uri s://h/a/b ../c -> s://h/c",
        "resolve-normalized uri S:/a/b ../%7e -> s:/~",
        "resolve-by-rules uri http://x/ //a:80 -> http://a/",
        "resolve-basic uri http://a/b/c/d;p?q ../g?y#s -> http://a/b/g?y#s",
        "resolve-basic uri http://a/ foo:a/../b -> foo:/b",
    ];
    hold(&rt, rt.alloc(), &rows);
}

/// Tests references that lead from a base to a target while memory is denied: the last is longer
/// than its target.
#[test]
fn relative_references(rt: HostRuntime) {
    let rows = [
        "relativize uri http://a/b/c/d?p#q s://c/d -> s://c/d",
        "relativize uri http://a/b/c/d?p#q http://c/d -> //c/d",
        "relativize uri http://a/b/c/d?p#q http://a/b/./c/x?y -> x?y",
        "relativize uri http://a/b/c/d?p#q http://a/b/c/d?p#z -> #z",
        "relativize iri s:/é/b/ s:/é/../é/b//c -> .//c",
        "relativize-path uri s:/a/b/c/d/e/f/g/h/i/j/k/l s:/z -> ../../../../../../../../../../../z",
    ];
    hold(&rt, rt.alloc(), &rows);
}

/// Tests paths that are decoded, and where to connect, while memory is denied.
#[test]
fn decoded(rt: HostRuntime) {
    let rows = [
        "to-bytes %C3%A9%FF -> owned C3 A9 FF",
        "to-string 0123456%C3%A989 -> owned 0123456é89",
        "to-string %FF -> not-utf8 FF",
        "to-string-lossy 0123456%C3%A9%FF89 -> owned 0123456é\\u{fffd}89",
        "socket uri-ref //h%C3%A9:80 -> owned hé 80",
    ];
    hold(&rt, rt.alloc(), &rows);
}
