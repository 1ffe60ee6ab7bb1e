//! Rows as they are in a file.

use crate::evaluate::evaluate;
use crate::fields::{RowError, Words, unescaped};
use std::alloc::Global;
use std::io::{self, BufRead};

/// A row: its file and line, and its text.
#[derive(Drop)]
pub struct Row<'f> {
    pub(crate) file: &'f str,
    pub(crate) line: u64,
    text: String,
}

/// Appends the rows of a file, which are its lines but for blank ones and those that begin with
/// `#`.
///
/// # Errors
///
/// If the reader fails, a line is not UTF-8, or memory runs out.
pub fn push_rows<'f, R: BufRead + Drop>(
    alloc: Global,
    file: &'f str,
    reader: R,
    rows: &mut Vec<Row<'f>>,
) -> io::Result<()> {
    let mut number: u64 = 0;
    for line in reader.lines(alloc) {
        let text = line?;
        number = number.saturating_add(1);
        if !text.trim().is_empty() && !text.starts_with('#') {
            rows.push(Row {
                file,
                line: number,
                text,
            })?;
        }
    }
    Ok(())
}

/// What is wrong with a row that does not hold.
#[derive(Drop)]
pub(crate) enum Difference {
    /// The row has no result.
    RowError(RowError),
    /// The result is another one.
    Answer { expected: Words, got: Words },
}

impl From<RowError> for Difference {
    /// Returns what is wrong with a row that has no result.
    fn from(fault: RowError) -> Difference {
        Difference::RowError(fault)
    }
}

impl Row<'_> {
    /// Compares the result of a row with the expected one.
    pub(crate) fn check(&self, alloc: Global) -> Result<(), Difference> {
        check(alloc, self.text.as_str())
    }
}

/// Compares the result of a row's text with the expected one.
fn check(alloc: Global, text: &str) -> Result<(), Difference> {
    let Some((asked, wanted)) = text.split_once(" -> ") else {
        return Err(Difference::RowError(RowError::Malformed("no ` -> `")));
    };
    let expected = canonical(alloc, wanted)?;
    let got = evaluate(alloc, asked)?;
    if got.as_str() == expected.as_str() {
        Ok(())
    } else {
        Err(Difference::Answer { expected, got })
    }
}

/// What a row comes to.
#[derive(Clone, Copy)]
pub enum Outcome {
    Holds,
    Differs,
    OutOfMemory,
}

/// Returns what the text of a row comes to: whether it holds, if no request for memory is denied.
pub fn run_row(alloc: Global, text: &str) -> Outcome {
    match check(alloc, text) {
        Ok(()) => Outcome::Holds,
        Err(Difference::RowError(RowError::OutOfMemory)) => Outcome::OutOfMemory,
        Err(_) => Outcome::Differs,
    }
}

/// Returns the expected words of a row with one space between two of them, escaped as results are.
fn canonical(alloc: Global, wanted: &str) -> Result<Words, RowError> {
    let mut words = Words::new(alloc);
    for word in wanted.split(' ') {
        if !word.is_empty() {
            words.text(unescaped(alloc, word)?.as_str())?;
        }
    }
    Ok(words)
}
