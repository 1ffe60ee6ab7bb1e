//! `run` of `uri_streams`: if an allocation fails, it says so, and wrote a prefix of its output.
//! Else it writes what it always does.
use crate::awaits::ExpectedOutput;
use crate::requests::{end, report};
use crate::values::holds;
use fluent_uri::Uri;
use fluent_uri::normalize::RuleSet;
use std::alloc::Global;
use std::hash::RandomState;
use std::io::BufReader;
use std::process::Abort;
use uri_commands::sink::Sink;
use uri_streams::command::{Base, Command, KindName, LineCommand};
use uri_streams::failure::Failure;
use uri_streams::job::{Field, Job, OnError};
use uri_streams::run::{Unwatched, run};
use uri_streams::source::Source;

/// Returns whether `urilines` writes this text for the input. If not, checks that `run` reports
/// denied memory and wrote a prefix of the text.
fn writes<R: Abort + Print>(rt: &R, alloc: Global, job: &Job<'_>, input: &str, text: &str) -> bool {
    let Ok(reader) = BufReader::with_capacity(alloc, 16, input.as_bytes()) else {
        report(rt, "a reader");
        return false;
    };
    let mut out = Sink::new(ExpectedOutput::new(text));
    let mut err = Sink::new(ExpectedOutput::new(""));
    let mut reader = Source::new(reader);
    match run(alloc, job, &mut reader, &mut out, &mut err, &mut Unwatched) {
        Ok(_) => {
            holds(rt, out.into_inner().lacks(""), text);
            true
        }
        Err(failure) => {
            holds(rt, matches!(failure, Failure::OutOfMemory), "a failure");
            report(rt, "run");
            holds(rt, out.into_inner().got_prefix(), text);
            false
        }
    }
}

/// Returns the job of a test of `urilines`: the command on the second field between spaces.
fn on_fields(command: Command<'_>) -> Job<'_> {
    Job {
        command,
        field: Some(Field {
            before: 1,
            delimiter: b' ',
        }),
        is_null: false,
        is_mended: false,
        max_line: 40,
        errors: OnError::Line,
    }
}

/// Checks that the job writes this text for the input, in a second run if memory is denied.
fn written<R: Abort + Print>(rt: &R, alloc: Global, job: &Job<'_>, input: &str, text: &str) {
    if !writes(rt, alloc, job, input, text) {
        let is_written = writes(rt, alloc, job, input, text);
        holds(rt, is_written, "the output, with memory");
    }
}

/// Tests the commands of `urilines` on a field of each line while memory is denied: first those that
/// make one text of another.
#[test]
fn fields_of_lines(rt: HostRuntime) {
    let base = Uri::<&str>::parse("s:/a").expect(&rt, "base");
    for (command, input, text) in [
        // The third line does not fit into the buffer.
        (
            LineCommand::Normalize(KindName::Uri, RuleSet::DefaultPorts),
            "a S:%7e b\n\nc s:0123456789012345 d\n",
            "a s:~ b\nerror: no field 2\nc s:0123456789012345 d\n",
        ),
        (
            LineCommand::Resolve(Base::Uri(base), false),
            "a b\na c\n",
            "a s:/b\na s:/c\n",
        ),
        (
            LineCommand::Resolve(Base::Uri(base), true),
            "a %2e\na .//b\n",
            "a s:/%2e\na error: target has no authority, and its path would start with '//'\n",
        ),
        (
            LineCommand::Mend(KindName::UriRef),
            "a b|c\na //a\\@b\n",
            "a b%7Cc\na error: unexpected character at index 3\n",
        ),
        (
            LineCommand::Parse(KindName::IriRef),
            "a b?c\n",
            "a {\"path\":\"b\",\"query\":\"c\"}\n",
        ),
        (
            LineCommand::Query(KindName::IriRef),
            "a ?b=%22&c\n",
            "a [[\"b\",\"\\\"\"],[\"c\",\"\"]]\n",
        ),
        (
            LineCommand::Check(KindName::Uri, true),
            "a s:\na b\n",
            "a b\n",
        ),
    ] {
        written(
            &rt,
            rt.alloc(),
            &on_fields(Command::Each(command)),
            input,
            text,
        );
    }
    end(&rt, rt.alloc());
}

/// Tests `urilines --mend` while memory is denied: the line breaks are dropped from a text that NUL
/// ends.
#[test]
fn lines_mended_first(rt: HostRuntime) {
    let command = LineCommand::Normalize(KindName::Uri, RuleSet::DefaultPorts);
    let mut job = on_fields(Command::Each(command));
    job.is_mended = true;
    job.is_null = true;
    written(&rt, rt.alloc(), &job, "a S:b\n|c\0", "a s:b%7Cc\0");
    end(&rt, rt.alloc());
}

/// Tests the commands of `urilines` that remember lines while memory is denied.
#[test]
fn lines_that_are_remembered(rt: HostRuntime) {
    let hasher = RandomState::new(&rt).expect(&rt, "random numbers");
    let command = Command::Unique(KindName::Uri, RuleSet::DefaultPorts, hasher);
    let (input, text) = ("a s:a\nb S:a\nc s:b\n", "a s:a\nc s:b\n");
    written(&rt, rt.alloc(), &on_fields(command), input, text);
    let base = Uri::<&str>::parse("s:/a").expect(&rt, "base");
    let command = Command::Links(base, RuleSet::DefaultPorts);
    let (input, text) = ("a b\na %62\n", "a new 0 s:/b\na known 0 s:/b\n");
    written(&rt, rt.alloc(), &on_fields(command), input, text);
    end(&rt, rt.alloc());
}
