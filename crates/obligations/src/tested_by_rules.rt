//! Characters that a constant allows.

use fluent_uri::pct_enc::encoder::{Path, Query};
use fluent_uri::pct_enc::{EStr, EString, Split, table};
use std::alloc::AllocError;

/// A caller cuts a query at each occurrence of a character, if the constant `RESERVED` allows it.
pub fn pieces(query: EStr<'_, Query>, delimiter: char) -> Option<Split<'_, Query>> {
    if table::RESERVED.allows(delimiter) {
        Some(query.split(delimiter))
    } else {
        None
    }
}

/// A caller cuts a query at the first occurrence of a character, if the constant `RESERVED` allows
/// it.
pub fn cut_at_the_first(
    query: EStr<'_, Query>,
    delimiter: char,
) -> Option<(EStr<'_, Query>, EStr<'_, Query>)> {
    if table::RESERVED.allows(delimiter) {
        query.split_once(delimiter)
    } else {
        None
    }
}

/// A caller cuts a path at the last occurrence of a character, if the constant `RESERVED` allows
/// it.
pub fn cut_at_the_last(
    path: EStr<'_, Path>,
    delimiter: char,
) -> Option<(EStr<'_, Path>, EStr<'_, Path>)> {
    if table::RESERVED.allows(delimiter) {
        path.rsplit_once(delimiter)
    } else {
        None
    }
}

/// A caller appends a character to a query after testing that the constant `QUERY` allows it.
pub fn push_if_in_a_query(query: &mut EString<Query>, ch: char) -> Result<(), AllocError> {
    if table::QUERY.allows(ch) {
        query.push(ch)?;
    }
    Ok(())
}
