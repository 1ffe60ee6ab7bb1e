//! Texts cut at a reserved character.
#![tactic(auto)]

use fluent_uri::pct_enc::encoder::{Path, Query};
use fluent_uri::pct_enc::{EStr, Split};

/// A caller cuts the path of a URI at each `/`, a literal delimiter.
pub fn segments(path: EStr<'_, Path>) -> Split<'_, Path> {
    path.split('/')
}

/// A caller cuts a query at each `&`, a literal delimiter.
pub fn pairs(query: EStr<'_, Query>) -> Split<'_, Query> {
    query.split('&')
}

/// A caller cuts a segment of a path at each `;`, a literal delimiter.
pub fn parameters(segment: EStr<'_, Path>) -> Split<'_, Path> {
    segment.split(';')
}

/// A caller cuts a name and its value, of a query, at the first `=`, a literal delimiter.
pub fn name_and_value(pair: EStr<'_, Query>) -> Option<(EStr<'_, Query>, EStr<'_, Query>)> {
    pair.split_once('=')
}

/// A caller cuts a path at the last `/`, a literal delimiter.
pub fn directory_and_name(path: EStr<'_, Path>) -> Option<(EStr<'_, Path>, EStr<'_, Path>)> {
    path.rsplit_once('/')
}
