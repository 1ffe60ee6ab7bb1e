//! Texts with their hosts in ASCII.

use crate::fields::{RowError, Words};
use crate::references::{parsed, say_error};
use std::alloc::Global;
use uri_idna::{AsciiHostError, with_ascii_host};
use uri_parts::kind::Kind;

/// Appends to a row's result the text with its host in ASCII, or the error.
pub(crate) fn ascii_host<K: Kind>(
    alloc: Global,
    text: &str,
    words: &mut Words,
) -> Result<(), RowError> {
    match with_ascii_host(alloc, &parsed::<K>(text)?) {
        Ok(made) => Ok(words.text(made.as_str())?),
        Err(AsciiHostError::OutOfMemory) => Err(RowError::OutOfMemory),
        Err(error) => say_error(alloc, &error, words),
    }
}
