//! Characters appended to a text.
#![tactic(auto)]

use fluent_uri::pct_enc::EString;
use fluent_uri::pct_enc::encoder::{Encoder, Path, Query, Userinfo};
use std::alloc::AllocError;

/// A caller appends the literal character `/` to the path of a URI, which allows it.
pub fn begin_a_segment(path: &mut EString<Path>) -> Result<(), AllocError> {
    path.push('/')
}

/// A caller appends the literal character `&` to a query, which allows it.
pub fn begin_a_pair(query: &mut EString<Query>) -> Result<(), AllocError> {
    query.push('&')
}

/// A caller appends the literal character `:` to userinfo, which allows it.
pub fn begin_a_password(userinfo: &mut EString<Userinfo>) -> Result<(), AllocError> {
    userinfo.push(':')
}

/// A caller appends a character to any encoded text after testing that the table allows it.
pub fn push_if_allowed<E: Encoder>(text: &mut EString<E>, ch: char) -> Result<(), AllocError> {
    if E::table().allows(ch) {
        text.push(ch)?;
    }
    Ok(())
}

/// A caller appends a character to a query after testing that the table of `Query` allows it.
pub fn push_if_in_a_query(query: &mut EString<Query>, ch: char) -> Result<(), AllocError> {
    if Query::table().allows(ch) {
        query.push(ch)?;
    }
    Ok(())
}
