//! The exit status of `urilines`.
ghost use Rattle.std.specs.Prelude.{◌≡◌, option_map};
ghost use Rattle.uri_streams.specs.Statuses.{IsRunStatus, IsStatusOf, tally_status};

use crate::failure::Failure;
use crate::job::OnError;
use crate::run::Tally;
use std::io::{self, ErrorKind};

/// Returns the exit status for how a run ended, where `errors` is what happened to lines that were
/// errors, and `report_error` is why the error output failed, if it did:
///
/// | Status | When |
/// |---|---|
/// | 0 | all lines were processed, and no error was written; or the output's reader went away |
/// | 1 | all lines were processed, or `stop` ended the run, and an error was written |
/// | 3 | reading or writing failed, the error output too, or memory was denied |
///
/// Under `drop` no error is written. An output whose reader went away is a closed pipe (`EPIPE`),
/// as that of `urilines .. | head`: the run ends quietly, whatever was written before. An error
/// output whose reader went away changes no status.
pub fn status(
    errors: OnError,
    ended: &Result<Tally, Failure>,
    report_error: Option<&io::Error>,
) -> u8
    ensures { IsStatusOf errors ended.now (option_map (λ error. error.now) report_error.entry)
        result }
{
    match report_error {
        Some(error) if error.kind() == ErrorKind::BrokenPipe => run_status(errors, ended),
        Some(_) => 3,
        None => run_status(errors, ended),
    }
}

/// Returns the exit status for how a run ended whose error output got all errors.
fn run_status(errors: OnError, ended: &Result<Tally, Failure>) -> u8
    ensures { IsRunStatus errors ended.now result }
{
    match ended {
        Ok(tally) => tally_status(errors, *tally),
        Err(Failure::Output(error)) if error.kind() == ErrorKind::BrokenPipe => 0,
        Err(_) => 3,
    }
}

/// Returns the exit status for a run that processed all lines, or that `stop` ended.
fn tally_status(errors: OnError, tally: Tally) -> u8
    ensures { result ≡ tally_status errors tally }
{
    match errors {
        OnError::Drop => 0,
        _ if tally.errors > 0 => 1,
        _ => 0,
    }
}
