//! Single octets of ASCII, decoded if unreserved (RFC 3986, sections 6.2.2.1 and 6.2.2.2).
ghost use Rattle.std.specs.Prelude.{◌≡◌, ◌<◌, ◌&&◌, ◌∷◌, ◌+◌, ◌*◌, ℕ, [], Bool, IsTrue, MatchOption, OnOk, drop, false, if◌then◌else◌, length, nat_lt, slice_index, true, IsCharBoundary};
ghost use Rattle.std.specs.Char.{digit_value, is_ascii_hexdigit};
ghost use Rattle.uri_pct.specs.Prelude.{IsValidFor, Octet, Pushes, decode_octet, is_unreserved, percent_sign, print, widest_set};
ghost use Rattle.uri_ops.specs.Models.Decodings.{IsOctetAt, lowered_if, lowered_code_if};
ghost use Rattle.uri_ops.specs.declared.normalize.octets.TheConstants.{LOWERED_CODES, UNRESERVED_CODES};

use std::alloc::AllocError;
use uri_pct::octet::{octet_value, pct_encoded};

/// Gives the table of the codes of the characters of ASCII that are unreserved (RFC 3986, section
/// 2.3), with these for the letters in upper case, and of 128 for each other byte.
macro_rules! unreserved_codes {
    ($($upper:expr),+) => {
        &[
            128, 128, 128, 128, 128, 128, 128, 128, 128, 128, 128, 128, 128, 128, 128, 128, // 00
            128, 128, 128, 128, 128, 128, 128, 128, 128, 128, 128, 128, 128, 128, 128, 128, // 10
            128, 128, 128, 128, 128, 128, 128, 128, 128, 128, 128, 128, 128, 45, 46, 128, // 20
            48, 49, 50, 51, 52, 53, 54, 55, 56, 57, 128, 128, 128, 128, 128, 128, // 30
            128, $($upper,)+ 128, 128, 128, 128, 95, // 40, 50
            128, 97, 98, 99, 100, 101, 102, 103, 104, 105, 106, 107, 108, 109, 110, 111, // 60
            112, 113, 114, 115, 116, 117, 118, 119, 120, 121, 122, 128, 128, 128, 126, 128, // 70
            128, 128, 128, 128, 128, 128, 128, 128, 128, 128, 128, 128, 128, 128, 128, 128, // 80
            128, 128, 128, 128, 128, 128, 128, 128, 128, 128, 128, 128, 128, 128, 128, 128, // 90
            128, 128, 128, 128, 128, 128, 128, 128, 128, 128, 128, 128, 128, 128, 128, 128, // A0
            128, 128, 128, 128, 128, 128, 128, 128, 128, 128, 128, 128, 128, 128, 128, 128, // B0
            128, 128, 128, 128, 128, 128, 128, 128, 128, 128, 128, 128, 128, 128, 128, 128, // C0
            128, 128, 128, 128, 128, 128, 128, 128, 128, 128, 128, 128, 128, 128, 128, 128, // D0
            128, 128, 128, 128, 128, 128, 128, 128, 128, 128, 128, 128, 128, 128, 128, 128, // E0
            128, 128, 128, 128, 128, 128, 128, 128, 128, 128, 128, 128, 128, 128, 128, 128, // F0
        ]
    };
}

/// The code of each unreserved character, and 128 for each other byte.
const UNRESERVED_CODES: &[u8; 256] = unreserved_codes!(
    65, 66, 67, 68, 69, 70, 71, 72, 73, 74, 75, 76, 77, 78, 79, 80, 81, 82, 83, 84, 85, 86, 87, 88,
    89, 90
);

/// The code in lower case of each unreserved character, and 128 for each other byte.
const LOWERED_CODES: &[u8; 256] = unreserved_codes!(
    97, 98, 99, 100, 101, 102, 103, 104, 105, 106, 107, 108, 109, 110, 111, 112, 113, 114, 115,
    116, 117, 118, 119, 120, 121, 122
);

/// Returns the codes that single octets of unreserved characters decode to, with letters lowered if
/// `lowers`.
#[inline(always)]
fn codes(lowers: bool) -> &'static [u8; 256]
    ensures { result.now ≡ (if lowers then LOWERED_CODES.now else UNRESERVED_CODES.now) }
{
    if lowers {
        LOWERED_CODES
    } else {
        UNRESERVED_CODES
    }
}

/// Returns the code that a single octet of this value decodes to if its character is unreserved,
/// with a letter lowered if `lowers`.
#[inline(always)]
pub(crate) fn unreserved(lowers: bool, value: u8) -> Option<u8>
    ensures { MatchOption result (is_unreserved value ≡ false)
        (λ ch. (ch ≡ lowered_code_if lowers value) × (is_unreserved value ≡ true)) }
{
    let ch = codes(lowers)[usize::from(value)];
    if ch.is_ascii() { Some(ch) } else { None }
}

/// Returns the digits of the octet that begins at a `%` of a valid text.
#[inline(always)]
pub(crate) fn octet_digits(text: &str, at: usize) -> (u8, u8)
    requires boundary { IsCharBoundary text.now at }
    requires valid { IsValidFor widest_set (drop at text.now) }
    requires within { at < length text.now }
    requires percent { slice_index text.now at ≡ percent_sign }
    ensures { IsOctetAt text.now at result.0 result.1 }
{
    let bytes = text.as_bytes();
    (bytes[at + 1], bytes[at + 2])
}

/// Returns the unreserved character that the octet with these digits encodes, if any, with a letter
/// lowered if `lowers`.
#[inline(always)]
pub(crate) fn unreserved_of_octet(lowers: bool, high: u8, low: u8) -> Option<u8>
    requires high { IsTrue (is_ascii_hexdigit high) }
    requires low { IsTrue (is_ascii_hexdigit low) }
    ensures { let value = 16 * digit_value high + digit_value low in
        MatchOption result (is_unreserved value ≡ false)
        (λ ch. (ch ≡ lowered_code_if lowers value) × (is_unreserved value ≡ true) × (high < 56)) }
{
    if high >= b'8' {
        return None;
    }
    let ch = unreserved(lowers, octet_value(high, low))?;
    Some(ch)
}

/// Returns whether both hexadecimal digits of a single octet are in upper case, as in a normal
/// form.
#[inline(always)]
pub(crate) fn are_uppercase_digits(high: u8, low: u8) -> bool
    ensures { result ≡ (nat_lt high 97 && nat_lt low 97) }
{
    high < b'a' && low < b'a'
}

/// Appends an unreserved character, decoded from an octet, by its code.
#[inline(always)]
pub(crate) fn push_unreserved(ch: u8, out: &mut String) -> Result<(), AllocError>
    ensures { (lowers : Bool) (value : ℕ) → is_unreserved value ≡ true
        → ch ≡ lowered_code_if lowers value → OnOk result
        (Pushes out.old out.new (print (lowered_if lowers (decode_octet (Octet value) ∷ [])))) }
{
    out.push(char::from(ch))?;
    Ok(())
}

/// Appends an octet that does not decode to an unreserved character, its digits in upper case.
#[inline(always)]
pub(crate) fn push_octet(value: u8, out: &mut String) -> Result<(), AllocError>
    requires { is_unreserved value ≡ false }
    ensures { (lowers : Bool) → OnOk result
        (Pushes out.old out.new (print (lowered_if lowers (decode_octet (Octet value) ∷ [])))) }
{
    out.push_str(pct_encoded(value))
}

/// Appends an octet, decoded by itself, with a letter lowered if `lowers`.
pub(crate) fn push_decoded_octet(
    lowers: bool,
    value: u8,
    out: &mut String,
) -> Result<(), AllocError>
    requires { value < 128 }
    ensures { OnOk result
        (Pushes out.old out.new (print (lowered_if lowers (decode_octet (Octet value) ∷ [])))) }
{
    match unreserved(lowers, value) {
        Some(ch) => push_unreserved(ch, out),
        None => push_octet(value, out),
    }
}
