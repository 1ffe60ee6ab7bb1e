//! Percent-encoding of texts and bytes (RFC 3986, section 2.1).
ghost use Rattle.std.specs.Prelude.{◌≡◌, ◌≤◌, ◌<◌, ◌++◌, ℕ, List, false, OnOk, OnErr, length, map, take, drop, encode_utf8, string_bytes, IsCharBoundary};
ghost use Rattle.uri_pct.specs.Encoding.{encode_text, encode_bytes, IsEncodedBy};
ghost use Rattle.uri_pct.specs.Sets.{allows};
ghost use Rattle.uri_pct.specs.Tables.{set_of};
ghost use Rattle.uri_pct.specs.Tokens.{Octet, print};

use crate::octet::pct_encoded;
use crate::table::Table;
use crate::utf8::char_at;
use std::alloc::AllocError;

/// Appends each byte as a percent-encoded octet.
#[doc(hidden)]
pub fn push_octets(bytes: &[u8], out: &mut String) -> Result<(), AllocError>
    ensures ok { OnOk result
        (string_bytes out.new ≡ string_bytes out.old ++ print (map Octet bytes.now)) }
    ensures keeps { take (length (string_bytes out.old)) (string_bytes out.new)
        ≡ string_bytes out.old }
{
    for &byte in bytes {
        out.push_str(pct_encoded(byte))?;
    }
    Ok(())
}

/// Returns where the characters end, from `start` on,
/// that are encoded as they are: the table allows them.
#[inline(always)]
fn allowed_end(table: &Table, text: &str, start: usize) -> usize
    requires { IsCharBoundary text.now start }
    ensures from { start ≤ result }
    ensures boundary { IsCharBoundary text.now result }
    ensures unchanged { IsEncodedBy (λ bytes. bytes) (set_of table.now) text.now start result }
    ensures stop { (c : ℕ) (rest : List ℕ) → drop result text.now ≡ encode_utf8 c ++ rest
        → allows (set_of table.now) c ≡ false }
{
    table.without_octets().scan(text, start)
}

/// Returns where the characters end, from `start` on,
/// that are encoded as octets: the table does not allow them.
#[inline(always)]
fn disallowed_end(table: &Table, text: &str, start: usize) -> usize
    requires { IsCharBoundary text.now start }
    ensures from { start ≤ result }
    ensures boundary { IsCharBoundary text.now result }
    ensures octets { IsEncodedBy (λ bytes. print (map Octet bytes)) (set_of table.now) text.now
        start result }
    ensures goes { start < length text.now
        → ((c : ℕ) (rest : List ℕ) → drop start text.now ≡ encode_utf8 c ++ rest
        → allows (set_of table.now) c ≡ false)
        → start < result }
{
    let mut end = start;
    while end < text.len() {
        let ch = char_at(text, end);
        if table.allows(ch) {
            return end;
        }
        end += ch.len_utf8();
    }
    end
}

/// Appends the text percent-encoded: characters that the table allows are unchanged, and others
/// become octets.
///
/// After an error, part of it may have been appended.
#[doc(hidden)]
pub fn push_text(table: &Table, text: &str, out: &mut String) -> Result<(), AllocError>
    ensures ok { OnOk result
        (string_bytes out.new ≡ string_bytes out.old
        ++ print (encode_text (set_of table.now) text.now)) }
    ensures keeps { take (length (string_bytes out.old)) (string_bytes out.new)
        ≡ string_bytes out.old }
{
    let mut done = 0;
    while done < text.len() {
        let end = allowed_end(table, text, done);
        out.push_str(&text[done..end])?;
        let next = disallowed_end(table, text, end);
        push_octets(&text.as_bytes()[end..next], out)?;
        done = next;
    }
    Ok(())
}

/// Appends the bytes percent-encoded: characters that the table allows are unchanged, and other
/// bytes become octets.
///
/// After an error, part of it may have been appended.
pub(crate) fn push_bytes(table: &Table, bytes: &[u8], out: &mut String) -> Result<(), AllocError>
    ensures ok { OnOk result
        (string_bytes out.new ≡ string_bytes out.old
        ++ print (encode_bytes (set_of table.now) bytes.now)) }
    ensures keeps { take (length (string_bytes out.old)) (string_bytes out.new)
        ≡ string_bytes out.old }
{
    for chunk in bytes.utf8_chunks() {
        push_text(table, chunk.valid(), out)?;
        push_octets(chunk.invalid(), out)?;
    }
    Ok(())
}

/// Appends the text percent-encoded: characters that the table allows are unchanged, and others
/// become octets. After an error `out` is as it was.
pub(crate) fn append_text(table: &Table, text: &str, out: &mut String) -> Result<(), AllocError>
    ensures ok { OnOk result
        (string_bytes out.new ≡ string_bytes out.old
        ++ print (encode_text (set_of table.now) text.now)) }
    ensures err { OnErr result (string_bytes out.new ≡ string_bytes out.old) }
{
    let len = out.as_str().len();
    if let Err(error) = push_text(table, text, out) {
        out.truncate(len);
        return Err(error);
    }
    Ok(())
}

/// Appends the bytes percent-encoded: characters that the table allows are unchanged, and other
/// bytes become octets. After an error `out` is as it was.
pub(crate) fn append_bytes(table: &Table, bytes: &[u8], out: &mut String) -> Result<(), AllocError>
    ensures ok { OnOk result
        (string_bytes out.new ≡ string_bytes out.old
        ++ print (encode_bytes (set_of table.now) bytes.now)) }
    ensures err { OnErr result (string_bytes out.new ≡ string_bytes out.old) }
{
    let len = out.as_str().len();
    if let Err(error) = push_bytes(table, bytes, out) {
        out.truncate(len);
        return Err(error);
    }
    Ok(())
}
