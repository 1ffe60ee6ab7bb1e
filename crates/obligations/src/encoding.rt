//! Texts that are encoded, decoded, and widened to an encoder that allows more.
#![tactic(auto)]

use fluent_uri::pct_enc::encoder::{
    Data, Encoder, Fragment, IData, IPath, IQuery, Path, Query, Userinfo,
};
use fluent_uri::pct_enc::{Decode, EStr, EString};
use std::alloc::AllocError;

/// A caller appends data to a path, percent-encoded.
pub fn encode_for_a_path(path: &mut EString<Path>, text: &str) -> Result<(), AllocError> {
    path.encode_str::<Data>(text)
}

/// A caller appends data to the query of an IRI, percent-encoded.
pub fn encode_for_an_iri(query: &mut EString<IQuery>, text: &str) -> Result<(), AllocError> {
    query.encode_str::<IData>(text)
}

/// A caller appends a text to a path, percent-encoded but for what a path allows: it keeps its
/// delimiters.
pub fn encode_a_path(path: &mut EString<Path>, text: &str) -> Result<(), AllocError> {
    path.encode_str::<Path>(text)
}

/// A caller appends bytes to a query, percent-encoded.
pub fn encode_bytes_for_a_query(
    query: &mut EString<Query>,
    bytes: &[u8],
) -> Result<(), AllocError> {
    query.encode_bytes::<Data>(bytes)
}

/// A caller appends a text, percent-encoded, for any encoders whose tables pass the tests.
pub fn encode_if_allowed<E: Encoder, SubE: Encoder>(
    text: &mut EString<E>,
    given: &str,
) -> Result<(), AllocError> {
    if SubE::table().is_subset(&E::table()) && SubE::table().allows_pct_encoded() {
        text.encode_str::<SubE>(given)?;
    }
    Ok(())
}

/// A caller appends bytes, percent-encoded, for any encoders whose tables pass the tests.
pub fn encode_bytes_if_allowed<E: Encoder, SubE: Encoder>(
    text: &mut EString<E>,
    given: &[u8],
) -> Result<(), AllocError> {
    if SubE::table().is_subset(&E::table()) && SubE::table().allows_pct_encoded() {
        text.encode_bytes::<SubE>(given)?;
    }
    Ok(())
}

/// A caller converts a path to a query.
pub fn path_as_query(path: EStr<'_, Path>) -> EStr<'_, Query> {
    path.upcast()
}

/// A caller converts a path of a URI to one of an IRI.
pub fn path_of_a_uri(path: EStr<'_, Path>) -> EStr<'_, IPath> {
    path.upcast()
}

/// A caller converts a query to a fragment.
pub fn query_as_fragment(query: EStr<'_, Query>) -> EStr<'_, Fragment> {
    query.upcast()
}

/// A caller gets the text for another encoder, whose table passes the test.
pub fn widened_if_allowed<E: Encoder, SuperE: Encoder>(
    text: EStr<'_, E>,
) -> Option<EStr<'_, SuperE>> {
    if E::table().is_subset(&SuperE::table()) {
        Some(text.upcast())
    } else {
        None
    }
}

/// A caller gets the percent-encoded octet of `/`.
pub fn slash() -> EStr<'static, Userinfo> {
    EStr::encode_byte(b'/')
}

/// A caller gets a byte as a percent-encoded octet, for any encoder whose table passes the test.
pub fn octet_if_allowed<E: Encoder>(byte: u8) -> Option<EStr<'static, E>> {
    if E::table().allows_pct_encoded() {
        Some(EStr::encode_byte(byte))
    } else {
        None
    }
}

/// A caller gets the parts that a path decodes to.
pub fn decode_a_path(path: EStr<'_, Path>) -> Decode<'_> {
    path.decode()
}

/// A caller gets the parts that a text decodes to, for any encoder whose table passes the test.
pub fn decode_if_allowed<E: Encoder>(text: EStr<'_, E>) -> Option<Decode<'_>> {
    if E::table().allows_pct_encoded() {
        Some(text.decode())
    } else {
        None
    }
}
