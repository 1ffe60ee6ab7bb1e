//! What `uritool` prints for given words, and the status that it ends with.
use crate::comparison::{equal, prints};
use crate::words::owned;
use fluent_uri::UriRef;
use fluent_uri::resolve::ResolveError;
use std::process::Abort;
use uri_commands::refusal::CommandError;
use uri_commands::run::run;
use uri_commands::sink::Sink;

const USAGE: &str =
    "usage: uritool parse KIND TEXT | [--scheme-rules] normalize KIND TEXT | mend KIND TEXT | resolve uri|iri BASE REF | [--scheme-rules] links BASE REF...\n";

/// Gives rows of words, the status that they end with, and what they print.
macro_rules! runs {
    ($($($word:literal)+ => $status:literal, $text:expr;)+) => {
        &[$((&[$($word),+], $status, $text)),+]
    };
}

/// Words, the status that they end with, and what they print: to the output if that is 0, and else
/// to the error output.
const RUNS: &[(&[&str], u8, &str)] = runs! {
    "parse" "iri-ref" "s://é?#" => 0, "scheme=s\nauthority=é\npath=\nquery=\nfragment=\n";
    "normalize" "iri" "HTTP://R%c3%89/É" => 0, "http://rÉ/É\n";
    "--scheme-rules" "normalize" "iri" "file://localhost/é" => 0, "file:///é\n";
    "mend" "uri-ref" " a b?[1]\n " => 0, "a%20b?%5B1%5D\n";
    "resolve" "iri" "http://é/a/b" "../ü" => 0, "http://é/ü\n";
    "links" "foo:bar" "//g" "foo:x" "FOO:%78" "#t" => 0,
        "refused when base has a rootless path and no authority, reference should either have \
         scheme, be empty or start with '#'\nnew 0 foo:x\nknown 0 foo:x\nnew 1 foo:bar#t\n";
    "--scheme-rules" "links" "http://x" "//a" "//a:80/" => 0,
        "new 0 http://a/\nknown 0 http://a/\n";
    "parse" "uri-ref" "text%a" => 1, "error: invalid percent-encoded octet at index 4\n";
    "normalize" "uri" "http://[:]" => 1, "error: invalid IPv6 address at index 8\n";
    "resolve" "uri" "foo" "%" => 1, "error: base: unexpected character at index 3\n";
    "resolve" "uri" "foo:bar#x" "//g" => 1, "error: base should not have fragment\n";
    "links" "http://x/#f" "a b" "a" "%" => 1, "error: reference: unexpected character at index 1\n";
    "normalize" "url" "foo" => 2, USAGE;
    "links" "http://x/" => 2, USAGE;
};

/// Tests what `uritool` prints.
#[test]
fn prints_outputs_and_errors(rt: HostRuntime) {
    let alloc = rt.alloc();
    for &(words, status, text) in RUNS {
        let given = owned(alloc, words).expect(&rt, text);
        let (mut out, mut err) = (Sink::new(Vec::new(alloc)), Sink::new(Vec::new(alloc)));
        let got = run(alloc, given.as_slice(), &mut out, &mut err).status;
        equal((words, got), (words, status)).expect(&rt, "status");
        let (output, line) = if status == 0 { (text, "") } else { ("", text) };
        equal(out.into_inner().as_slice(), output.as_bytes()).expect(&rt, text);
        equal(err.into_inner().as_slice(), line.as_bytes()).expect(&rt, text);
    }
}

/// A text for each kind of error.
const FAULTS: &[&str] = &["a b", "text%a", "http://[:]"];

const RESOLVE_ERRORS: &[ResolveError] = &[
    ResolveError::BaseWithFragment,
    ResolveError::InvalidReferenceAgainstOpaqueBase,
    ResolveError::PathUnderflow,
    ResolveError::OutOfMemory,
];

/// Tests that the messages of `uritool` have the texts that the library's errors print.
#[test]
fn says_what_the_errors_say(rt: HostRuntime) {
    let alloc = rt.alloc();
    for &text in FAULTS {
        let error = UriRef::<&str>::parse(text).err().expect(&rt, text);
        let said = format!(in alloc; "{error}").expect(&rt, "memory");
        prints(alloc, &CommandError::Text(error), said.as_str()).expect(&rt, text);
        let said = format!(in alloc; "base: {error}").expect(&rt, "memory");
        prints(alloc, &CommandError::Base(error), said.as_str()).expect(&rt, text);
        let said = format!(in alloc; "reference: {error}").expect(&rt, "memory");
        prints(alloc, &CommandError::Reference(error), said.as_str()).expect(&rt, text);
    }
    for &error in RESOLVE_ERRORS {
        let said = format!(in alloc; "{error}").expect(&rt, "memory");
        prints(alloc, &CommandError::Target(error), said.as_str()).expect(&rt, "target");
    }
}
