//! Each line of standard input as a URI, an IRI or a reference: `uri_commands::table` has the
//! commands.
#![tactic(auto)]

mod options;
mod progress;
mod table;

use clap::Error;
use options::{job, parsed, shows_progress};
use progress::Progress;
use std::alloc::Global;
use std::env;
use std::hash::RandomState;
use std::io::{self, BufReader, BufWriter, ErrorKind};
use std::process::ExitCode;
use uri_commands::sink::Sink;
use uri_streams::failure::Failure;
use uri_streams::job::Job;
use uri_streams::run::run;
use uri_streams::source::Source;
use uri_streams::status::status;

/// The capacity of the buffers of standard input and standard output, in bytes.
const CAPACITY: usize = 64 * 1024;

/// Runs the command that the words of the command line of `urilines` make, and returns its exit
/// status.
fn main(rt: HostRuntime) -> ExitCode {
    let alloc = rt.alloc();
    let words = match words(&rt, alloc) {
        Ok(words) => words,
        Err(error) if error.kind() == ErrorKind::OutOfMemory => return failed(&rt, "out of memory"),
        Err(_) => {
            show_error(&rt, "arguments");
            return ExitCode::from(2);
        }
    };
    let matches = match parsed(alloc, words.as_slice()) {
        Ok(matches) => matches,
        Err(error) => return rejected(&rt, &error),
    };
    let Ok(hasher) = RandomState::new(&rt) else {
        return failed(&rt, "no random numbers");
    };
    match job(&matches, hasher) {
        Ok(job) => process(&rt, alloc, &job, shows_progress(&matches)),
        Err(error) => {
            let _ = eprintln!(rt; "error: {error}");
            ExitCode::from(2)
        }
    }
}

/// Prints what `clap` says of the words of the command line, and returns the exit status of
/// `urilines`.
fn rejected(rt: &HostRuntime, error: &Error) -> ExitCode {
    if error.kind() == clap::error::ErrorKind::OutOfMemory {
        return failed(rt, "out of memory");
    }
    match error.print(rt) {
        Ok(()) => ExitCode::from(error.exit_code() as u8),
        Err(_) => ExitCode::from(3),
    }
}

/// Processes the lines of the standard input of `urilines` under a job, and returns the exit
/// status.
fn process(rt: &HostRuntime, alloc: Global, job: &Job<'_>, shows_progress: bool) -> ExitCode {
    let Ok(reader) = BufReader::with_capacity(alloc, CAPACITY, rt.stdin()) else {
        return failed(rt, "out of memory");
    };
    let Ok(writer) = BufWriter::with_capacity(alloc, CAPACITY, rt.stdout()) else {
        return failed(rt, "out of memory");
    };
    let (mut reader, mut writer) = (Source::new(reader), Sink::new(writer));
    let mut err = Sink::new(rt.stderr());
    let mut progress = Progress::new(rt, shows_progress);
    let ended = run(
        alloc,
        job,
        &mut reader,
        &mut writer,
        &mut err,
        &mut progress,
    );
    let status = status(job.errors, &ended, err.error());
    match ended {
        Ok(tally) => progress.end(tally),
        Err(failure) if status != 0 => show_error(rt, failure_message(&failure)),
        // The reader of the output went away.
        Err(_) => {}
    }
    ExitCode::from(status)
}

/// Returns what the error output says of a run that failed.
fn failure_message(failure: &Failure) -> &'static str {
    match failure {
        Failure::Output(_) => "output failed",
        Failure::Input(error) if error.kind() == ErrorKind::WouldBlock => {
            "input failed: it is in non-blocking mode, and the next bytes are not there yet"
        }
        Failure::Input(_) => "input failed",
        Failure::OutOfMemory => "out of memory",
    }
}

/// Writes to the error output why `urilines` failed.
fn show_error(rt: &HostRuntime, why: &str) {
    let _ = eprintln!(rt; "error: {why}");
}

/// Writes to the error output why `urilines` failed before it read a line, and returns its exit
/// status.
fn failed(rt: &HostRuntime, why: &str) -> ExitCode {
    show_error(rt, why);
    ExitCode::from(3)
}

/// Returns the words of the command line of `urilines`.
fn words(rt: &HostRuntime, alloc: Global) -> io::Result<Vec<String>> {
    Ok(env::args(rt)?.collect(alloc)?)
}
