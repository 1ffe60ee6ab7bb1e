//! The pairs of a query as a line of JSON.
ghost use Rattle.std.specs.Prelude.{◌≡◌, ◌++◌, ◌<◌, IfOk, OnOk, map, option_map, string_bytes};
ghost use Rattle.uri_query.specs.Pairs.{pair_texts};
ghost use Rattle.fluent_uri.specs.Prelude.{text_of};
ghost use Rattle.uri_streams.specs.Queries as spec;
ghost use Rattle.uri_streams.specs.Queries.{control_json, escaped_char, escaped_text, following_pairs_json, pair_json, pairs_json, pairs_of_query};

use fluent_uri::pct_enc::EStr;
use fluent_uri::pct_enc::encoder::IQuery;
use std::alloc::{AllocError, Global};
use uri_query::{Pair, pairs_of};

/// Returns the decoded pairs of a query as a JSON array, which is empty if there is no query.
///
/// # Errors
///
/// Only if allocation fails.
#[tactic(auto, unfolding(crate::specs::Queries::query_json))]
pub(crate) fn query_json(
    alloc: Global,
    query: Option<EStr<'_, IQuery>>,
) -> Result<String, AllocError>
    ensures { IfOk result (λ line.
        string_bytes line ≡ spec.query_json (option_map text_of query.entry)) }
{
    let mut out = String::from_str(alloc, "[")?;
    push_query_pairs(alloc, &mut out, query)?;
    out.push_str("]")?;
    Ok(out)
}

/// Appends the decoded pairs of a query to a JSON array, or nothing if there is no query.
#[tactic(auto, using(fluent_uri::proofs::Calling::calling))]
fn push_query_pairs(
    alloc: Global,
    out: &mut String,
    query: Option<EStr<'_, IQuery>>,
) -> Result<(), AllocError>
    ensures { OnOk result (string_bytes out.new
        ≡ string_bytes out.old ++ pairs_json (pairs_of_query (option_map text_of query.entry))) }
{
    match query {
        Some(query) => push_pairs(out, pairs_of(alloc, query)?.as_slice()),
        None => Ok(()),
    }
}

/// Appends the pairs of a query to a JSON array, with commas between them.
fn push_pairs(out: &mut String, pairs: &[Pair]) -> Result<(), AllocError>
    ensures { OnOk result (string_bytes out.new
        ≡ string_bytes out.old ++ pairs_json (map pair_texts pairs.now)) }
{
    match pairs {
        [] => Ok(()),
        [first, more @ ..] => {
            push_pair(out, first)?;
            push_following_pairs(out, more)
        }
    }
}

/// Appends the pairs of a query after the first to a JSON array, each with a comma before it.
fn push_following_pairs(out: &mut String, pairs: &[Pair]) -> Result<(), AllocError>
    ensures { OnOk result (string_bytes out.new
        ≡ string_bytes out.old ++ following_pairs_json (map pair_texts pairs.now)) }
{
    for pair in pairs {
        out.push_str(",")?;
        push_pair(out, pair)?;
    }
    Ok(())
}

/// Appends a pair of a query in JSON, as an array of its name and its value.
fn push_pair(out: &mut String, pair: &Pair) -> Result<(), AllocError>
    ensures { OnOk result (string_bytes out.new
        ≡ string_bytes out.old ++ pair_json (pair_texts pair.now)) }
{
    out.push_str("[\"")?;
    push_escaped(out, pair.name.as_str())?;
    out.push_str("\",\"")?;
    push_escaped(out, pair.value.as_str())?;
    out.push_str("\"]")
}

/// Appends a text in JSON, with the characters escaped that must be (RFC 8259, section 7).
fn push_escaped(out: &mut String, text: &str) -> Result<(), AllocError>
    ensures { OnOk result
        (string_bytes out.new ≡ string_bytes out.old ++ escaped_text text.now) }
{
    for character in text.chars() {
        push_char(out, character)?;
    }
    Ok(())
}

/// Appends a character of a text in JSON, escaped if it must be (RFC 8259, section 7).
fn push_char(out: &mut String, character: char) -> Result<(), AllocError>
    ensures { OnOk result
        (string_bytes out.new ≡ string_bytes out.old ++ escaped_char character) }
{
    match character {
        '"' => out.push_str("\\\""),
        '\\' => out.push_str("\\\\"),
        '\0'..='\x1f' => push_control(out, character as u8),
        other => out.push(other),
    }
}

/// Appends a control character in JSON, escaped by the four digits of its number
/// (RFC 8259, section 7).
fn push_control(out: &mut String, byte: u8) -> Result<(), AllocError>
    requires { byte < 32 }
    ensures { OnOk result (string_bytes out.new ≡ string_bytes out.old ++ control_json byte) }
{
    out.push_str(if byte < 16 { "\\u000" } else { "\\u001" })?;
    out.push(hex_digit(byte % 16))
}

/// Returns the hexadecimal digit of a number below 16, in lower case.
fn hex_digit(digit: u8) -> char
    requires { digit < 16 }
    ensures { result ≡ spec.hex_digit digit }
{
    if digit < 10 {
        char::from(b'0' + digit)
    } else {
        char::from(b'a' - 10 + digit)
    }
}
