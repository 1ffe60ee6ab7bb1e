//! What the commands of `urilines` write. `.ci/urilines.sh` has the options of the built program.
use crate::comparison::equal;
use fluent_uri::Uri;
use fluent_uri::normalize::RuleSet;
use std::alloc::Global;
use std::hash::RandomState;
use std::io::BufReader;
use std::process::Abort;
use uri_commands::sink::Sink;
use uri_streams::command::{Base, Command, KindName, LineCommand};
use uri_streams::failure::Failure;
use uri_streams::job::{Field, Job, OnError};
use uri_streams::run::{Unwatched, run};
use uri_streams::source::Source;

pub(crate) const CAPACITY: usize = 64;

/// Returns the job of a test of `urilines`: the command on whole lines of up to 40 bytes.
pub(crate) fn with_defaults(command: Command<'_>) -> Job<'_> {
    Job {
        command,
        field: None,
        is_null: false,
        is_mended: false,
        max_line: 40,
        errors: OnError::Line,
    }
}

/// Returns what a run of `urilines` wrote to its output and its error output, or why the run ended.
fn both_outputs(alloc: Global, job: &Job<'_>, input: &[u8]) -> Result<(Vec<u8>, Vec<u8>), Failure> {
    let reader = BufReader::with_capacity(alloc, CAPACITY, input).map_err(Failure::Input)?;
    let mut out = Sink::new(Vec::new(alloc));
    let mut err = Sink::new(Vec::new(alloc));
    let mut reader = Source::new(reader);
    run(alloc, job, &mut reader, &mut out, &mut err, &mut Unwatched)?;
    Ok((out.into_inner(), err.into_inner()))
}

/// Checks what a job of `urilines` writes for an input.
fn writes<R: Abort>(rt: &R, alloc: Global, job: &Job<'_>, input: &[u8], output: &[u8], err: &str) {
    let got = both_outputs(alloc, job, input).ok().expect(rt, "run");
    equal(got.0.as_slice(), output).expect(rt, "output");
    equal(got.1.as_slice(), err.as_bytes()).expect(rt, "error output");
}

/// Tests the output of each command of `urilines`.
#[test]
fn each_command_has_its_output(rt: HostRuntime) {
    let alloc = rt.alloc();
    let base = Uri::<&str>::parse("http://a/b/c").expect(&rt, "base");
    let hasher = RandomState::new(&rt).expect(&rt, "random numbers");
    let commands = [
        (
            Command::Each(LineCommand::Normalize(KindName::Uri, RuleSet::StandardRules)),
            "HTTP://h:80\r\nx:\n\n",
            "http://h/\r\nx:\nerror: unexpected character at index 0\n",
        ),
        (
            Command::Each(LineCommand::Resolve(Base::Uri(base), false)),
            "../g\na b\n",
            "http://a/g\nerror: reference: unexpected character at index 1\n",
        ),
        (
            Command::Each(LineCommand::Relativize(Base::Uri(base), true)),
            "http://a/x\nhttp://a/b/c\n",
            "../x\n\n",
        ),
        (
            Command::Each(LineCommand::Check(KindName::UriRef, true)),
            "a\na b\r\nc",
            "a b\r\n",
        ),
        (
            Command::Each(LineCommand::Parse(KindName::Iri)),
            "x://u@[::1]:8/é?q#f\n",
            "{\"scheme\":\"x\",\"authority\":\"u@[::1]:8\",\"userinfo\":\"u\",\"host\":\"[::1]\",\
             \"host_kind\":\"ipv6\",\"port\":\"8\",\"path\":\"/é\",\"query\":\"q\",\"fragment\":\"f\"}\n",
        ),
        // RFC 3986, section 2.1: `%26` is data. RFC 8259, section 7: what JSON escapes.
        (
            Command::Each(LineCommand::Query(KindName::UriRef)),
            "?a=b=c&&d=%26\n?%22%5C=%0A%1f+%7f&%FF\nx:",
            "[[\"a\",\"b=c\"],[\"d\",\"&\"]]\n\
             [[\"\\\"\\\\\",\"\\u000a\\u001f+\u{7f}\"],[\"\u{fffd}\",\"\"]]\n[]\n",
        ),
        (
            Command::Each(LineCommand::Mend(KindName::UriRef)),
            " /x|y \r\n1:2\n//h\\@e/\n",
            "/x%7Cy\r\n./1:2\nerror: unexpected character at index 3\n",
        ),
        (
            Command::Unique(KindName::Uri, RuleSet::DefaultPorts, hasher),
            "HTTP://h\nx:\nhttp://h:80\nX:\n",
            "http://h\nx:\n",
        ),
        (
            Command::Links(base, RuleSet::DefaultPorts),
            "c\nd\n./%63\n",
            "new 0 http://a/b/c\nnew 1 http://a/b/d\nknown 0 http://a/b/c\n",
        ),
    ];
    for &(command, input, output) in &commands {
        let job = with_defaults(command);
        writes(&rt, alloc, &job, input.as_bytes(), output.as_bytes(), "");
    }
}

/// Tests a job of `urilines` with each option.
#[test]
fn options_have_their_output(rt: HostRuntime) {
    let command = LineCommand::Normalize(KindName::Uri, RuleSet::DefaultPorts);
    let mut job = with_defaults(Command::Each(command));
    job.field = Some(Field {
        before: 1,
        delimiter: b'|',
    });
    job.is_null = true;
    job.is_mended = true;
    job.errors = OnError::Stderr;
    let input = b"1|HTTP://h/a\nb|x\x003\x00|x:|".as_slice();
    let output = b"1|http://h/ab|x\x00|x:|\x00".as_slice();
    writes(
        &rt,
        rt.alloc(),
        &job,
        input,
        output,
        "error: line 2: no field 2\n",
    );
}
