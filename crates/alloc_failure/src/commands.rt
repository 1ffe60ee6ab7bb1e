//! `run` of `uritool`: if an allocation fails it says so and prints nothing; else it prints what it
//! always does.
use crate::awaits::ExpectedOutput;
use crate::requests::{end, report, tried};
use crate::values::holds;
use integration_tests::comparison::equal;
use integration_tests::words::owned;
use std::alloc::Global;
use std::process::Abort;
use uri_commands::run::run;
use uri_commands::sink::Sink;

const OUT_OF_MEMORY: &str = "error: out of memory\n";

/// Returns whether `uritool` prints this text for the words. If not, checks that `run` reports
/// denied memory and prints nothing.
fn prints<R: Abort + Print>(rt: &R, alloc: Global, words: &[String], text: &str) -> bool {
    let (mut out, mut err) = (
        Sink::new(ExpectedOutput::new(text)),
        Sink::new(ExpectedOutput::new(OUT_OF_MEMORY)),
    );
    let status = run(alloc, words, &mut out, &mut err).status;
    let (out, err) = (out.into_inner(), err.into_inner());
    if status == 1 {
        report(rt, "run");
        holds(rt, out.lacks(text), "an output that got nothing");
        holds(rt, err.lacks(""), "an error output that was told");
        return false;
    }
    equal(status, 0).expect(rt, "status");
    holds(rt, out.lacks(""), text);
    holds(
        rt,
        err.lacks(OUT_OF_MEMORY),
        "an error output that was told nothing",
    );
    true
}

/// Words, and what they print.
const RUNS: &[(&[&str], &str)] = &[
    (&["parse", "uri", "s:a"], "scheme=s\npath=a\n"),
    (&["normalize", "iri", "S:%7e"], "s:~\n"),
    (&["mend", "uri-ref", "a\n b"], "a%20b\n"),
    (&["resolve", "uri", "s:/a", "b"], "s:/b\n"),
    (&["links", "s:/a", "b"], "new 0 s:/b\n"),
];

/// Tests what `uritool` prints, in a second run if memory is denied.
#[test]
fn commands(rt: HostRuntime) {
    let alloc = rt.alloc();
    for &(given, text) in RUNS {
        let words = tried!(&rt; "words", owned(alloc, given));
        let is_printed = prints(&rt, alloc, words.as_slice(), text)
            || prints(&rt, alloc, words.as_slice(), text);
        holds(&rt, is_printed, "the answer, with memory");
    }
    end(&rt, alloc);
}
