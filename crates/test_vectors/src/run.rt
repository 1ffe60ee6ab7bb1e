//! The run of rows, over any writer.
ghost use Rattle.std.specs.Prelude.{◌≡◌, ◌≤◌, length, Ok};
ghost use Rattle.std.specs.Io.KnownBytes.{Appends, Keeps};
ghost use Rattle.test_vectors.specs.Lines.{summary};

use crate::row::{Difference, Row};
use std::alloc::Global;
use std::io::{self, Write};

/// Runs each row, writes a line `fail FILE:LINE: ..` for each that differs and last
/// `rows N failed M`, and returns the exit status.
///
/// 0: no row differs, and `out` got the last line alone. 1: a row differs or is malformed, or `out`
/// failed, which ends the run.
pub fn run<O: Write>(alloc: Global, rows: &[Row<'_>], out: &mut O) -> u8
    ensures passed { result ≡ 0 → Appends (O.contents out.old) (O.contents out.new)
        (summary (length rows.now) 0) }
    ensures status { result ≤ 1 }
{
    match report(alloc, rows, out) {
        Ok(0) => 0,
        _ => 1,
    }
}

/// Writes the lines of a run of rows, and returns how many rows differ.
fn report<O: Write>(alloc: Global, rows: &[Row<'_>], out: &mut O) -> io::Result<usize>
    ensures { result ≡ Ok 0 → Appends (O.contents out.old) (O.contents out.new)
        (summary (length rows.now) 0) }
{
    let failed = report_failures(alloc, rows, out)?;
    writeln!(out, "rows {} failed {failed}", rows.len())?;
    Ok(failed)
}

/// Writes a line for each row that differs, and returns how many these are.
fn report_failures<O: Write>(alloc: Global, rows: &[Row<'_>], out: &mut O) -> io::Result<usize>
    ensures { result ≡ Ok 0 → Keeps (O.contents out.old) (O.contents out.new) }
{
    let mut failed: usize = 0;
    for row in rows {
        if let Err(difference) = row.check(alloc) {
            print_failure(row, &difference, out)?;
            failed = failed.saturating_add(1);
        }
    }
    Ok(failed)
}

/// Writes where a row is, and what is wrong with it.
fn print_failure<O: Write>(row: &Row<'_>, difference: &Difference, out: &mut O) -> io::Result<()> {
    let (file, line) = (row.file, row.line);
    match difference {
        Difference::RowError(fault) => writeln!(out, "fail {file}:{line}: {fault}"),
        Difference::Answer { expected, got } => {
            let (expected, got) = (expected.as_str(), got.as_str());
            writeln!(out, "fail {file}:{line}: expected {expected}, got {got}")
        }
    }
}
