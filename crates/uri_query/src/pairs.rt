//! The pairs of a query, read and written.
ghost use Rattle.std.specs.Prelude.{◌≡◌, map, string_bytes, IfOk, IsTrue};
ghost use Rattle.fluent_uri.specs.Prelude.{owned_text, text_of};
ghost use Rattle.uri_query.specs.Pairs.{decode_pair, decode_pairs, decode_text, pair_texts};
ghost use Rattle.uri_query.specs.Pairs.{query_text, text_after_equals, text_before_equals};

use fluent_uri::pct_enc::encoder::{Data, Query};
use fluent_uri::pct_enc::{EStr, EString, Encoder};
use std::alloc::{AllocError, Global};

/// A name with its value, decoded.
#[derive(Debug, Drop)]
pub struct Pair {
    pub name: String,
    pub value: String,
}

/// Returns the pairs of a query. Each nonempty substring between its `&` is cut at its first `=`,
/// and both halves are decoded. Without `=` the value is empty. Bytes that are not UTF-8 become
/// U+FFFD, and `+` is not a space.
///
/// # Conditions
///
/// The encoder allows percent-encoded octets, as `Query` and `IQuery` do.
///
/// # Errors
///
/// Only if allocation fails.
///
/// # Examples
///
/// Of `name=ferret&page=2%263` they are `name` with `ferret` and `page` with `2&3`.
pub fn pairs_of<E: Encoder>(alloc: Global, query: EStr<'_, E>) -> Result<Vec<Pair>, AllocError>
    requires { IsTrue (E.set).pct_encoded }
    ensures { IfOk result (λ pairs.
        map pair_texts pairs.items ≡ decode_pairs (text_of query.entry)) }
{
    let mut pairs = Vec::new(alloc);
    for piece in query.split('&') {
        if !piece.is_empty() {
            pairs.push(pair_of(alloc, piece)?)?;
        }
    }
    Ok(pairs)
}

/// Returns the pair of name and value of a substring of a query, both decoded.
fn pair_of<E: Encoder>(alloc: Global, piece: EStr<'_, E>) -> Result<Pair, AllocError>
    requires { IsTrue (E.set).pct_encoded }
    ensures { IfOk result (λ pair. pair_texts pair ≡ decode_pair (text_of piece.entry)) }
{
    let (name, value) = name_and_value(piece);
    Ok(Pair {
        name: decoded(alloc, name)?,
        value: decoded(alloc, value)?,
    })
}

/// Returns what is before the first `=` of a substring of a query, the name, and what is after it.
#[tactic(auto, using(fluent_uri::proofs::Calling::calling, crate::proofs::Cuts::cuts))]
fn name_and_value<E: Encoder>(piece: EStr<'_, E>) -> (EStr<'_, E>, EStr<'_, E>)
    ensures name { text_of result.0 ≡ text_before_equals (text_of piece.entry) }
    ensures value { text_of result.1 ≡ text_after_equals (text_of piece.entry) }
{
    match piece.split_once('=') {
        Some(pair) => pair,
        None => (piece, EStr::default()),
    }
}

/// Returns the text that the name or the value of a pair of a query decodes to.
fn decoded<E: Encoder>(alloc: Global, piece: EStr<'_, E>) -> Result<String, AllocError>
    requires { IsTrue (E.set).pct_encoded }
    ensures { IfOk result (λ text. string_bytes text ≡ decode_text (text_of piece.entry)) }
{
    piece.decode().to_string_lossy(alloc)?.into_owned(alloc)
}

/// Returns the query of the pairs: `name=value`, joined by `&`. Each name and value is data, in
/// which reserved characters are percent-encoded (RFC 3986, section 2.4).
///
/// # Errors
///
/// Only if allocation fails.
///
/// # Examples
///
/// Of `name` with `ferret` and `page` with `2&3` it is `name=ferret&page=2%263`.
pub fn query_of(alloc: Global, pairs: &[Pair]) -> Result<EString<Query>, AllocError>
    ensures { IfOk result (λ query.
        owned_text query ≡ query_text (map pair_texts pairs.now)) }
{
    let mut query = EString::new(alloc);
    for pair in pairs {
        if !query.is_empty() {
            query.push('&')?;
        }
        query.encode_str::<Data>(pair.name.as_str())?;
        query.push('=')?;
        query.encode_str::<Data>(pair.value.as_str())?;
    }
    Ok(query)
}

/// The query that `query_of` makes of pairs has these pairs again: whatever is in a name or a
/// value, nothing of it is lost or moves to another. This is a law: nothing is run.
///
/// # Examples
///
/// `a&b` with `=` becomes `a%26b=%3D`, whose only pair is `a&b` with `=`.
#[tactic(auto, using(crate::proofs::PairsAgain::query_of_pairs_has_these_pairs))]
pub fn pairs_of_their_query_are_the_same(pairs: &[Pair])
    ensures { decode_pairs (query_text (map pair_texts pairs.now)) ≡ map pair_texts pairs.now }
{}
