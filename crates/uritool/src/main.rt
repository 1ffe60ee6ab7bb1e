//! URIs and IRIs on the command line: `uri_commands::table` has the forms.
#![tactic(auto)]

use std::alloc::Global;
use std::env::{self, Env, FillError};
use std::io::{self, ErrorKind, LineWriter, Write};
use std::process::ExitCode;
use uri_commands::run::run;
use uri_commands::sink::Sink;

/// The arguments after the program's name, which may not be UTF-8.
#[derive(Drop)]
struct Arguments<'a>(&'a HostRuntime);

impl Env for Arguments<'_> {
    /// Fills `buf` with the argument of `uritool` at an index, where the program's name is left
    /// out.
    fn arg(&self, i: usize, buf: &mut [u8]) -> Result<usize, FillError> {
        let place = i.checked_add(1).ok_or(FillError::NotPresent)?;
        self.0.arg(place, buf)
    }

    /// Fills `buf` with the environment variable of `uritool` that has this name.
    fn var(&self, name: &str, buf: &mut [u8]) -> Result<usize, FillError> {
        self.0.var(name, buf)
    }

    /// Fills `buf` with the environment variable of `uritool` at an index.
    fn var_at(&self, i: usize, buf: &mut [u8]) -> Result<usize, FillError> {
        self.0.var_at(i, buf)
    }
}

/// Writes the line to the error output of `uritool`, and returns status 1.
fn report_error<E: Write>(err: &mut E, line: &str) -> ExitCode {
    let _ = err.write_all(line.as_bytes());
    ExitCode::from(1)
}

/// Runs the command that the words of the command line of `uritool` make, and returns its exit
/// status.
fn main(rt: HostRuntime) -> ExitCode {
    let alloc = rt.alloc();
    let mut err = rt.stderr();
    let words = match words(&rt, alloc) {
        Ok(words) => words,
        Err(error) if error.kind() == ErrorKind::OutOfMemory => {
            return report_error(&mut err, "error: out of memory\n");
        }
        Err(_) => return report_error(&mut err, "error: arguments\n"),
    };
    let Ok(out) = LineWriter::new(alloc, rt.stdout()) else {
        return report_error(&mut err, "error: out of memory\n");
    };
    let (mut out, mut err) = (Sink::new(out), Sink::new(err));
    let status = run(alloc, words.as_slice(), &mut out, &mut err).status;
    if status == 0 && !out.flush() {
        return report_error(&mut err.into_inner(), "error: output failed\n");
    }
    ExitCode::from(status)
}

/// Returns the words of the command line of `uritool` after the program's name.
fn words(rt: &HostRuntime, alloc: Global) -> io::Result<Vec<String>> {
    Ok(env::args(&(Arguments(rt), alloc))?.collect(alloc)?)
}
