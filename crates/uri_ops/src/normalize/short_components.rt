//! Decoding of short components, byte by byte (RFC 3986, sections 6.2.2.1 and 6.2.2.2).
ghost use Rattle.std.specs.Prelude.{◌≡◌, ◌+◌, ◌*◌, ◌≤◌, ◌++◌, ◌∷◌, [], Bool, IsTrue, drop, false, length, string_bytes, take, true, vec_capacity, vec_len, IsAscii, IsCharBoundary};
ghost use Rattle.std.specs.Char.{digit_value, is_ascii_hexdigit};
ghost use Rattle.uri_pct.specs.Prelude.{IsValidFor, LacksPastAscii, Octet, TableSet, decode_octet, is_unreserved, print, widest_set};
ghost use Rattle.uri_ops.specs.Models.Decodings.{decoded_text, lowered_if};

use crate::normalize::literal_runs::lowered_code_if;
use crate::normalize::octets::{octet_digits, unreserved};
use crate::normalize::room::{has_room, put_bytes, take_bytes};
use uri_pct::octet::{octet_value, pct_encoded};

/// Appends an octet that does not decode to an unreserved character, its digits in upper case.
#[inline(always)]
fn push_octet_bytes(value: u8, out: &mut Vec<u8>)
    requires reserved { is_unreserved value ≡ false }
    requires room { vec_len out.old + 3 ≤ vec_capacity out.old }
    ensures items { (lowers : Bool) → out.new.items
        ≡ out.old.items ++ print (lowered_if lowers (decode_octet (Octet value) ∷ [])) }
    ensures len { vec_len out.new ≡ vec_len out.old + 3 }
    ensures capacity { vec_capacity out.new ≡ vec_capacity out.old }
{
    let octet = pct_encoded(value).as_bytes();
    out.push_reserved(octet[0]);
    out.push_reserved(octet[1]);
    out.push_reserved(octet[2]);
}

/// Appends the octet with these digits to bytes that have room for it: decoded if its character is
/// unreserved, and with a letter lowered if `lowers`.
#[inline(always)]
fn push_octet_of_digits(lowers: bool, high: u8, low: u8, out: &mut Vec<u8>)
    requires high { IsTrue (is_ascii_hexdigit high) }
    requires low { IsTrue (is_ascii_hexdigit low) }
    requires room { vec_len out.old + 3 ≤ vec_capacity out.old }
    ensures items { let value = 16 * digit_value high + digit_value low in out.new.items
        ≡ out.old.items ++ print (lowered_if lowers (decode_octet (Octet value) ∷ [])) }
    ensures len { vec_len out.new ≤ vec_len out.old + 3 }
    ensures capacity { vec_capacity out.new ≡ vec_capacity out.old }
{
    let value = octet_value(high, low);
    match unreserved(lowers, value) {
        Some(ch) => out.push_reserved(ch),
        None => push_octet_bytes(value, out),
    }
}

/// Appends the tokens of a short component to bytes that have room for it: with decodable octets
/// decoded, and with letters lowered if `lowers`, one by one. It returns the position after the
/// last. It stops at the first that is past ASCII, but for octets if `alone`.
#[inline(always)]
fn push_short_bytes(alone: bool, lowers: bool, text: &str, out: &mut Vec<u8>) -> usize
    requires valid { IsValidFor widest_set text.now }
    requires room { vec_len out.old + length text.now ≤ vec_capacity out.old }
    ensures text { (set : TableSet) → (alone ≡ true → LacksPastAscii set)
        → out.new.items ++ decoded_text lowers set (drop result text.now)
        ≡ out.old.items ++ decoded_text lowers set text.now }
    ensures unchanged { take (length out.old.items) out.new.items ≡ out.old.items }
    ensures ascii { IsAscii (drop (length out.old.items) out.new.items) }
    ensures boundary { IsCharBoundary text.now result }
    ensures valid { IsValidFor widest_set (drop result text.now) }
{
    let bytes = text.as_bytes();
    let mut end = 0;
    while end < bytes.len() {
        let byte = bytes[end];
        if byte != b'%' {
            if !byte.is_ascii() {
                return end;
            }
            out.push_reserved(lowered_code_if(lowers, byte));
            end += 1;
            continue;
        }
        let (high, low) = octet_digits(text, end);
        if high >= b'8' && !alone {
            return end;
        }
        push_octet_of_digits(lowers, high, low, out);
        end += 3;
    }
    end
}

/// Appends a short component with decodable octets decoded, and with letters lowered if `lowers`,
/// and returns true. What it appends is ASCII. If something is past ASCII, or the text has no room,
/// it returns false, and the text is as before. But octets past ASCII are unchanged if `alone`: the
/// table of the component allows no such character.
///
/// If a text is short, this takes fewer instructions than to find and copy its runs. It calls
/// nothing, so it has few registers to save.
#[inline(always)]
pub(crate) fn push_short(alone: bool, lowers: bool, text: &str, out: &mut String) -> bool
    requires { IsValidFor widest_set text.now }
    ensures done { result ≡ true → (set : TableSet) → (alone ≡ true → LacksPastAscii set)
        → (string_bytes out.new ≡ string_bytes out.old ++ decoded_text lowers set text.now)
        × IsAscii (decoded_text lowers set text.now) }
    ensures left { result ≡ false → string_bytes out.new ≡ string_bytes out.old }
{
    if !has_room(text.len(), out) {
        return false;
    }
    let start = out.as_str().len();
    let mut bytes = take_bytes(out);
    let end = push_short_bytes(alone, lowers, text, &mut bytes);
    if end < text.len() {
        bytes.truncate(start);
        put_bytes(bytes, out);
        return false;
    }
    put_bytes(bytes, out);
    true
}
