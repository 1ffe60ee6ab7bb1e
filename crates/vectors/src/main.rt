//! Runs the rows of the files that are its arguments, as `crates/vectors/data` has them.
#![tactic(auto)]

use std::env;
use std::fs::File;
use std::io::{self, BufReader, ErrorKind};
use std::process::ExitCode;
use test_vectors::run::run;
use test_vectors::{Row, push_rows};

/// Tests the rows of the files that the command line names.
fn main(rt: HostRuntime) -> io::Result<ExitCode> {
    let alloc = rt.alloc();
    let files: Vec<String> = env::args(&rt)?.skip(1).collect(alloc)?;
    let mut rows: Vec<Row<'_>> = Vec::new(alloc);
    for file in files.as_slice() {
        let reader = BufReader::new(alloc, File::open(&rt, file.as_str())?)?;
        push_rows(alloc, file.as_str(), reader, &mut rows)?;
    }
    Ok(ExitCode::from(run(alloc, rows.as_slice(), &mut rt.stdout())))
}
