//! Texts that are mended.

use crate::fields::{RowError, Words};
use crate::parsed::say_parse_error;
use fluent_uri::Reference;
use std::alloc::Global;
use uri_mend::{Mend, MendError};
use uri_parts::kind::Kind;

/// Appends to a row's result the text of the kind that a text is mended to, or the kind and the
/// index of the error.
pub(crate) fn mend<K: Kind>(alloc: Global, text: &str, words: &mut Words) -> Result<(), RowError> {
    match Reference::<K, String>::mend(alloc, text) {
        Ok(made) => Ok(words.text(made.as_str())?),
        Err(MendError::Unmendable(error)) => Ok(say_parse_error(alloc, error, words)?),
        Err(MendError::OutOfMemory) => Err(RowError::OutOfMemory),
    }
}
