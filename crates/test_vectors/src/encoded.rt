//! What is asked of percent-encoded texts.

use crate::fields::{RowError, Words};
use crate::parsed::say_cow;
use crate::references::parsed;
use fluent_uri::pct_enc::encoder::{
    Data, Encoder, Fragment, IData, IPath, Path, Port, Query, RegName, Userinfo,
};
use fluent_uri::pct_enc::{CowSlice, CowStr, DecodeError, EStr, EString, Table, table};
use std::alloc::{AllocError, Global};
use uri_parts::kind::IriRefKind;

const NO_ENCODER: RowError = RowError::Malformed("no such encoder");

/// Makes a percent-encoded path of a row's text, or returns why the row is malformed.
fn path(text: &str) -> Result<EStr<'_, IPath>, RowError> {
    EStr::new(text).ok_or(RowError::Malformed("not a path"))
}

/// Appends to a row's result bytes as hexadecimal numbers.
fn say_bytes(alloc: Global, bytes: &[u8], words: &mut Words) -> Result<(), AllocError> {
    for byte in bytes {
        words.verbatim(format!(in alloc; "{byte:02X}")?.as_str())?;
    }
    Ok(())
}

/// Appends to a row's result what a path decodes to, or its segments.
pub(crate) fn say_decoded_path(
    alloc: Global,
    operation: &str,
    text: &str,
    words: &mut Words,
) -> Result<(), RowError> {
    let path = path(text)?;
    match operation {
        "to-bytes" => Ok(say_decoded(alloc, &path.decode().to_bytes(alloc)?, words)?),
        "to-string" => match path.decode().to_string(alloc) {
            Ok(text) => Ok(say_cow(&text, words)?),
            Err(error) => say_undecoded(alloc, error, words),
        },
        "to-string-lossy" => Ok(say_cow(&path.decode().to_string_lossy(alloc)?, words)?),
        "read" => say_decodings(alloc, text, words),
        _ => Ok(say_segments(path, words)?),
    }
}

/// Appends to a row's result decoded bytes, and whether they are borrowed.
fn say_decoded(
    alloc: Global,
    bytes: &CowSlice<'_, u8>,
    words: &mut Words,
) -> Result<(), AllocError> {
    match bytes {
        CowSlice::Borrowed(bytes) => {
            words.verbatim("borrowed")?;
            say_bytes(alloc, bytes, words)
        }
        CowSlice::Owned(bytes) => {
            words.verbatim("owned")?;
            say_bytes(alloc, bytes.as_slice(), words)
        }
    }
}

/// Appends to a row's result the decoded bytes that are not UTF-8.
fn say_undecoded(alloc: Global, error: DecodeError, words: &mut Words) -> Result<(), RowError> {
    match error {
        DecodeError::NotUtf8(bytes) => {
            words.verbatim("not-utf8")?;
            Ok(say_bytes(alloc, bytes.as_slice(), words)?)
        }
        DecodeError::OutOfMemory => Err(RowError::OutOfMemory),
    }
}

/// Appends to a row's result the segments of an absolute path, or `none`.
fn say_segments(path: EStr<'_, IPath>, words: &mut Words) -> Result<(), AllocError> {
    let Some(segments) = path.segments_if_absolute() else {
        return words.verbatim("none");
    };
    for segment in segments {
        words.text(segment.as_str())?;
    }
    Ok(())
}

/// Appends to a row's result the normal form of a path as an IRI reference, whether its bytes are a
/// text, and that text, with U+FFFD for what is ill-formed.
fn say_decodings(alloc: Global, text: &str, words: &mut Words) -> Result<(), RowError> {
    let path = path(text)?;
    words.text(parsed::<IriRefKind>(text)?.normalize(alloc)?.as_str())?;
    let lossy = path.decode().to_string_lossy(alloc)?;
    compare_decoded(alloc, path.decode().to_string(alloc), lossy.as_str(), words)?;
    Ok(words.text(lossy.as_str())?)
}

/// Appends to a row's result whether a path decodes to a text or to bytes, and what differs from
/// the lossy text.
fn compare_decoded(
    alloc: Global,
    decoded: Result<CowStr<'_>, DecodeError>,
    lossy: &str,
    words: &mut Words,
) -> Result<(), RowError> {
    match decoded {
        Ok(text) => {
            words.verbatim("text")?;
            Ok(words.unless(text.as_str() == lossy, "of another text")?)
        }
        Err(DecodeError::NotUtf8(bytes)) => {
            words.verbatim("bytes")?;
            let text = String::from_utf8_lossy(alloc, bytes.as_slice())?;
            Ok(words.unless(text.as_str() == lossy, "of another text")?)
        }
        Err(DecodeError::OutOfMemory) => Err(RowError::OutOfMemory),
    }
}

/// Appends to a row's result the substrings of a path that the row asks for.
pub(crate) fn say_substrings(
    operation: &str,
    text: &str,
    delimiter: &str,
    words: &mut Words,
) -> Result<(), RowError> {
    let path = path(text)?;
    let delimiter = match delimiter {
        "/" => '/',
        ";" => ';',
        "," => ',',
        _ => return Err(RowError::Malformed("no such delimiter")),
    };
    let cut = match operation {
        "split" => {
            for piece in path.split(delimiter) {
                words.text(piece.as_str())?;
            }
            return Ok(());
        }
        "split-once" => path.split_once(delimiter),
        _ => path.rsplit_once(delimiter),
    };
    match cut {
        Some((before, after)) => {
            words.text(before.as_str())?;
            Ok(words.text(after.as_str())?)
        }
        None => Ok(words.verbatim("none")?),
    }
}

/// Returns whether the encoder that a row names allows a text.
pub(crate) fn is_valid(encoder: &str, text: &str) -> Result<bool, RowError> {
    Ok(match encoder {
        "userinfo" => keeps::<Userinfo>(text),
        "reg-name" => keeps::<RegName>(text),
        "port" => keeps::<Port>(text),
        "path" => keeps::<Path>(text),
        "query" => keeps::<Query>(text),
        "fragment" => keeps::<Fragment>(text),
        "ipath" => keeps::<IPath>(text),
        _ => return Err(NO_ENCODER),
    })
}

/// Returns whether the encoder of a row allows a text, and its `EStr` keeps it.
fn keeps<E: Encoder>(text: &str) -> bool {
    match EStr::<E>::new(text) {
        Some(value) => value.as_str() == text && value.len() == text.len(),
        None => false,
    }
}

/// Appends to a row's result bytes or a text as the encoder that it names writes them.
pub(crate) fn encode(
    alloc: Global,
    encoder: &str,
    bytes: &[u8],
    is_text: bool,
    words: &mut Words,
) -> Result<(), RowError> {
    match encoder {
        "path" => say_encoded::<Path>(alloc, bytes, is_text, words),
        "query" => say_encoded::<Query>(alloc, bytes, is_text, words),
        "data" => say_encoded::<Data>(alloc, bytes, is_text, words),
        "idata" => say_encoded::<IData>(alloc, bytes, is_text, words),
        _ => Err(NO_ENCODER),
    }
}

/// Appends to a row's result bytes or a text, percent-encoded by an encoder.
fn say_encoded<E: Encoder>(
    alloc: Global,
    bytes: &[u8],
    is_text: bool,
    words: &mut Words,
) -> Result<(), RowError> {
    if !E::table().is_subset(&E::table()) || !E::table().allows_pct_encoded() {
        return Err(NO_ENCODER);
    }
    let mut text = EString::<E>::new(alloc);
    match std::str::from_utf8(bytes) {
        Ok(decoded) if is_text => text.encode_str::<E>(decoded)?,
        _ => text.encode_bytes::<E>(bytes)?,
    }
    Ok(words.text(text.as_str())?)
}

/// Returns the constant table that a row names.
fn named_table(name: &str) -> Result<Table, RowError> {
    Ok(match name {
        "alpha" => table::ALPHA,
        "digit" => table::DIGIT,
        "hexdig" => table::HEXDIG,
        "scheme" => table::SCHEME,
        "unreserved" => table::UNRESERVED,
        "gen-delims" => table::GEN_DELIMS,
        "sub-delims" => table::SUB_DELIMS,
        "reserved" => table::RESERVED,
        "ipv-future" => table::IPV_FUTURE,
        "reg-name" => table::REG_NAME,
        "userinfo" => table::USERINFO,
        "segment-nz-nc" => table::SEGMENT_NZ_NC,
        "pchar" => table::PCHAR,
        "path" => table::PATH,
        "query" => table::QUERY,
        "fragment" => table::FRAGMENT,
        _ => return Err(RowError::Malformed("no such table")),
    })
}

/// Appends to a row's result the ASCII characters of a table, and whether it has percent-encoded
/// octets.
pub(crate) fn table(alloc: Global, name: &str, words: &mut Words) -> Result<(), RowError> {
    let table = named_table(name)?;
    let mut characters = String::new(alloc);
    for code in 0..128u8 {
        let ch = char::from(code);
        if table.allows(ch) {
            characters.push(ch)?;
        }
    }
    words.text(characters.as_str())?;
    words.verbatim(if table.allows_pct_encoded() {
        "octets"
    } else {
        "no-octets"
    })?;
    if table.allows('é') {
        words.verbatim("past-ascii")?;
    }
    Ok(())
}
